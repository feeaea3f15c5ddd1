// What machines say to each other, its formats, and what holds of them.
#![tactic(auto)]

pub mod kind;
pub mod laws;
pub mod message;
