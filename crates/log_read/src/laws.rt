//! What holds of the texts of lines and of their reading.

ghost use Rattle.log_read.specs.Laws.{LinesAreTheirSpellings, BodiesHaveNoEnd, LogsAreTheirLines, WrittenLogsAreRead, NumberedLogsAreRead};

/// Bytes are read as a line, by any scale, exactly where they are its one spelling, its values are in the scale's ranges, and the
/// line is one of the version's.
pub fn lines_are_their_spellings()
    ensures { LinesAreTheirSpellings }
{}

/// No line's spelling has LF in it.
pub fn bodies_have_no_end()
    ensures { BodiesHaveNoEnd }
{}

/// A text is read as a log exactly where it is the text of the log's lines, and each of them is in range and of the version
/// that the first line names. So what is read is printed again.
pub fn logs_are_their_lines()
    ensures { LogsAreTheirLines }
{}

/// What is printed is read again: the text of a first line that names `VERSION`, and of further lines that are in range and
/// name no other version, is read as these lines; and so it is with `IDS_VERSION`.
pub fn written_logs_are_read()
    ensures latest { WrittenLogsAreRead }
    ensures numbered { NumberedLogsAreRead }
{}
