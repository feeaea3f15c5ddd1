// What holds of lines, as a theorem: the function stands for what its contract says.
ghost use Rattle.lines.specs.Laws.{ReadBack};

// What was written is read back.
pub fn read_back()
    ensures { ReadBack }
{}
