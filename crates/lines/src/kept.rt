// What was read of a line.
use machine::name::Machine;

#[derive(Drop)]
pub struct Line {
    pub machine: Machine,
    pub bytes: Vec<u8>,
}
