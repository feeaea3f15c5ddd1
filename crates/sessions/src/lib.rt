// The open sessions of one server: which are open, in which place, and when each had its last packet.
#![tactic(auto)]

pub mod clock;
pub mod entry;
pub mod key;
pub mod store;
mod tally;
