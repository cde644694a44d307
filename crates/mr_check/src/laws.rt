//! Laws of what is judged.

ghost use Rattle.mr_check.specs.Laws.{RightIsRun, RunIsRight};

/// Where no rule fails at any line, a text is that of the history that it tells, with the flows of
/// the scenario's packets, which is legal and has what the scenario asks.
pub fn right_is_run()
    ensures { RightIsRun }
{}

/// Of a legal history that has what the scenario asks, and whose text is in the grammar, the text
/// is read, and no rule fails at any line.
pub fn run_is_right()
    ensures { RunIsRight }
{}
