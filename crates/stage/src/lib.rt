// One bucket played by the rules of its chain: servers, balancers, the controller, and every message on its way between them.
#![tactic(auto)]

pub mod event;
pub mod message;
pub mod post;
pub mod session;
pub mod stage;
