// What becomes of a packet, and what a balancer is told.
use chain::place::Outcome;
use machine::sent::Sent;

#[derive(Clone, Copy, PartialEq, Eq, Debug)]
pub struct Passed {
    pub outcome: Outcome,
    // The balancer that sent to a forgotten place is told of the place after it.
    pub hint: Option<Sent>,
}
