// What one server knows of the places of one bucket.
#![tactic(auto)]

pub mod kept;
pub mod newest;
mod search;
