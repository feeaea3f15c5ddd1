// The settings of a program: one to a line, and then `run`.
#![tactic(auto)]

pub mod kept;
pub mod laws;
pub mod list;
mod number;
pub mod take;
