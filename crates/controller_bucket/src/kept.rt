// What the controller keeps of one bucket; what it does stands in `ops`, what it says in `say`.
use chain::kept::Chain;

pub mod ops;
pub mod say;

#[derive(Drop)]
pub struct Bucket {
    chain: Chain,
    // Ticks since the handover's message was last said.
    age: u8,
    // The balancers that have not answered that they heard of the newest place.
    untold: Vec<u16>,
    // Ticks since they were last told.
    untold_age: u8,
    // The operator has heard that the next handover is put off.
    reported: bool,
}
