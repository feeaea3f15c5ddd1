// The script of the simulation: a line of text is one command, or a fault.
#![tactic(auto)]

pub mod command;
pub mod read;
