// Lines of text that name a machine and have bytes in hex: who hands them over, or who gets them.
#![tactic(auto)]

pub mod hex;
pub mod kept;
pub mod laws;
mod name;
pub mod read;
pub mod write;
