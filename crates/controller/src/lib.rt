// The controller: it holds the assignment and the chains of all buckets, and makes handovers.
#![tactic(auto)]

pub mod kept;
pub mod law;
pub mod status;
