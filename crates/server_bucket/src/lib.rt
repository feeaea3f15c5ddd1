// What one server keeps of one bucket: its places, and the forgotten ones of which it still speaks.
#![tactic(auto)]

pub mod farewell;
pub mod kept;
pub mod say;
mod search;
