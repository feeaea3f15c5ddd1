// The script that the hall plays: a line of text is one command, or a fault.
#![tactic(auto)]

pub mod command;
pub mod read;
pub mod word;
