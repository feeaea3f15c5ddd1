// What holds of reading and writing, as theorems: each function stands for what its contract says.
ghost use Rattle.wire.specs.Forwarding.{Forwards};
ghost use Rattle.wire.specs.Kinds.{KindAgain, NumberAgain, KindKnown};
ghost use Rattle.wire.specs.Laws.{FirstFault, NoKind, Cut, TooMany, ReadAgain, WrittenAgain};

// No position before the fault that is told has one, and none at all where a message was read.
pub fn first_fault()
    ensures behind { FirstFault }
    ensures kind { NoKind }
{}

// A message that is cut, or followed by anything, is malformed.
pub fn whole()
    ensures cut { Cut }
    ensures more { TooMany }
{}

// What was written is read again, and what was read is written again as the same bytes.
pub fn one_form()
    ensures again { ReadAgain }
    ensures same { WrittenAgain }
{}

// The head written anew is that of the same packet at the other place.
pub fn forwards()
    ensures { Forwards }
{}

// A kind is found again by its number, and a number by its kind; what has a kind has a format.
pub fn kinds()
    ensures again { KindAgain }
    ensures same { NumberAgain }
    ensures known { KindKnown }
{}
