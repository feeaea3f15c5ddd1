// What all machines share: their names, what they send, and when something is said again.
#![tactic(auto)]

pub mod again;
pub mod name;
pub mod outbox;
pub mod sent;
