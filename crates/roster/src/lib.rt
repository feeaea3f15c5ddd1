// The servers that have the buckets, and which server has each bucket.
#![tactic(auto)]

pub mod list;
pub mod roster;
