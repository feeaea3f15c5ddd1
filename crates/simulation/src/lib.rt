// Balancers, servers, the controller and everything on its way between them, played one event at a time.
#![tactic(auto)]

pub mod deliver;
pub mod event;
pub mod letter;
pub mod orders;
pub mod random;
mod traffic;
pub mod world;
