//! What holds of each step text.

ghost use Rattle.step_text.specs.Laws.{StepsAreInRange, FaultsAreOnLines, LinesAreFew};

/// The directives of a step text are within their limits, each is on a line of the text, and they are nested: no `close` is
/// without its group, no group lies too deep, and none is left open.
pub fn steps_are_in_range()
    ensures { StepsAreInRange }
{}

/// The line at which a step text is at fault is one of its lines.
pub fn faults_are_on_lines()
    ensures { FaultsAreOnLines }
{}

/// A text has no more lines than bytes.
pub fn lines_are_few()
    ensures { LinesAreFew }
{}
