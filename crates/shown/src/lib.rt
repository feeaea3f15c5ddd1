// What both programs that play a script print in the same way. Here a server is a house, a balancer a door, the controller the office, a session a table.
#![tactic(auto)]

pub mod change;
pub mod program;
pub mod text;
