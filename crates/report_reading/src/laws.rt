//! The law of runs that were read, the contract of a function that does nothing.
ghost use Rattle.report_reading.specs.Laws.{ReadRunsAreAsked};

/// A run of a schema and lanes that were read is one whose reports are read line by line.
pub fn read_runs_are_asked()
    ensures { ReadRunsAreAsked }
{}
