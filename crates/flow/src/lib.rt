// Which session a packet belongs to, and which bucket the session is in.
#![tactic(auto)]

pub mod buckets;
pub mod bytes;
pub mod ipv4;
pub mod key;
pub mod reverse;
pub mod sum;
pub mod text;
