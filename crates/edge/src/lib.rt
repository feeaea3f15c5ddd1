// Where bytes come in and go out of a machine: what it takes of them and from whom, what it refuses, and what it posts.
#![tactic(auto)]

pub mod post;
pub mod refuse;
pub mod send;
pub mod sort;
