//! The law of reading, the contract of a function that does nothing.
ghost use Rattle.line_forms.specs.Laws.{ReadingJudges};

/// Where reading stops, no form can stand, and what is read whole is told.
pub fn reading_judges()
    ensures { ReadingJudges }
{}
