// One bucket over any run. The code of a place and of the controller is in `chain`; here the model of all machines of one
// bucket is built from the definitions that the contracts there cite, and each theorem about it is a contract.
#![tactic(auto)]

ghost use Rattle.bucket.specs.Promise.{Main};
ghost use Rattle.bucket.specs.Runs.{SomeRuns};
ghost use Rattle.bucket.specs.NearMisses.{AllBreak};
ghost use Rattle.bucket.specs.Cases.{WorkedCases};

// Whatever is late, lost, repeated or out of order, whatever balancers know, however often the bucket changes hands:
// no session is open twice, and none that is open loses a packet to a refusal.
pub fn every_run_keeps_sessions()
    ensures { Main }
{}

// The promises are not empty: sessions are opened, found in old places, opened past forgotten ones, and refused once closed.
pub fn runs_exist()
    ensures { SomeRuns }
{}

// Five rules that come near the rule of a place, each with a run in which it breaks a promise.
pub fn near_misses_break()
    ensures { AllBreak }
{}

// The worked cases, as rows of one table.
pub fn worked_cases_hold()
    ensures { WorkedCases }
{}
