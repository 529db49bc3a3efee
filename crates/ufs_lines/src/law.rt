ghost use Rattle.ufs_lines.specs.Trace.{TellOne};

/// A law on traces, which costs nothing: a line tells one thing at most.
pub fn a_line_tells_one_thing()
    ensures { TellOne }
{}
