// The chain of places that keep one bucket: what a place does with a packet and with each message,
// and what the controller keeps of it. No I/O: values in, values out.
#![tactic(auto)]

pub mod handover;
pub mod kept;
pub mod place;
pub mod way;
