// What is proved of assignments beside the contracts of single functions.
ghost use Rattle.assignment.specs.Laws.{LeastMoves, AnyQuotas, WorkedCases};
ghost use Rattle.assignment.specs.Moves.{CountedMoves};

// How few buckets any assignment can change, that keeping the lowest attains it for any quotas, and how long the list of moves is.
pub fn assignment_laws()
    ensures least { LeastMoves }
    ensures quotas { AnyQuotas }
    ensures counted { CountedMoves }
{}

// A table of cases that were worked by hand.
pub fn worked_cases()
    ensures { WorkedCases }
{}
