// What holds of reading settings, as a theorem: the function stands for what its contract says.
ghost use Rattle.settings.specs.Laws.{FirstFault};

// The fault that is told is that of the first line that has one.
pub fn first_fault()
    ensures { FirstFault }
{}
