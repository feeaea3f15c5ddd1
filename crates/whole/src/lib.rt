// All machines together over any run. What each machine does is in its own crate; here they and the network between them
// are one model, built from the definitions that the machines' contracts cite, and the theorem about it is a contract.
#![tactic(auto)]

ghost use Rattle.whole.specs.Promise.{Main, Balanced};
ghost use Rattle.whole.specs.Runs.{SomeRuns};

// Whatever is late, lost, repeated or out of order, whatever balancers know, whichever servers come and go:
// no session is open twice, and none that is open loses a packet to a refusal.
pub fn every_run_keeps_sessions()
    ensures { Main }
{}

// Whatever orders are given, and however far the handovers are: after an order that changes the assignment no server is
// assigned two buckets more than another.
pub fn assignments_are_even()
    ensures { Balanced }
{}

// The promises are not empty: a session is opened, its bucket is handed over to a server that is added, and its next
// packet finds it in its old place.
pub fn runs_exist()
    ensures { SomeRuns }
{}
