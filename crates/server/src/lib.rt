// A server: it keeps open sessions, forwards what is not its own, and speaks of the places where it stands.
#![tactic(auto)]

pub mod busy;
pub mod kept;
pub mod passed;
