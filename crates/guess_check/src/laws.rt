//! The law of checked rows, the contract of a function that does nothing.
ghost use Rattle.guess_check.specs.Laws.{CheckedRowsPass};

/// What `check` tells is the check of a guess as the law of trees has it, both ways.
pub fn checked_rows_pass()
    ensures { CheckedRowsPass }
{}
