//! What the text of a report is.
ghost use Rattle.report_print.specs.Laws.{ReportsAreSpelled};

/// What is put is the spelling of the report, where the changes of each index are counted from 1.
pub fn reports_are_spelled()
    ensures { ReportsAreSpelled }
{}
