//! Laws of the lines of a report, each the contract of a function that does nothing.
ghost use Rattle.report_forms.specs.Answers.{AnswersAreRead};
ghost use Rattle.report_forms.specs.Entries.{EntriesAreRead};
ghost use Rattle.report_forms.specs.Reports.{ReportsAreRead, ReportsAreJudged};
ghost use Rattle.report_forms.specs.Scans.{ScansAreRead};

/// The lines of an index's entries are a form of lines.
pub fn entries_are_read()
    ensures { EntriesAreRead }
{}

/// The line of an answer is one, where no scan was asked.
pub fn answers_are_read()
    ensures { AnswersAreRead }
{}

/// The lines of a scan's answer are one.
pub fn scans_are_read()
    ensures { ScansAreRead }
{}

/// A whole report is one.
pub fn reports_are_read()
    ensures { ReportsAreRead }
{}

/// Where the reading of a report stops, its form is lost.
pub fn reports_are_judged()
    ensures { ReportsAreJudged }
{}
