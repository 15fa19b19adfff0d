//! Laws of verdicts, each the contract of a function that does nothing.
ghost use Rattle.audit_law.specs.Laws.{LinesAreSpelled, LinesAreLines, LinesJudge, OneVerdict};

/// The lines that are judged are the text.
pub fn lines_are_spelled()
    ensures { LinesAreSpelled }
{}

/// Each line that is judged is one line of the bytes.
pub fn lines_are_lines()
    ensures { LinesAreLines }
{}

/// A report that has its form is legal exactly where each of its lines keeps each point.
pub fn lines_judge()
    ensures { LinesJudge }
{}

/// Some bytes have at most one verdict.
pub fn bytes_have_one_verdict()
    ensures { OneVerdict }
{}
