// Which server has each bucket: an even assignment, and how it changes when servers come and go.
#![tactic(auto)]

pub mod balance;
pub mod buckets;
pub mod counts;
pub mod laws;
pub mod moves;
pub mod quota;
