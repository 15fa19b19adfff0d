//! The laws of how a run ends.
ghost use Rattle.ahi_cli.specs.Law.{GoodRunsAreDone, RunsEndByFirstRefusal, AmpleRunsFindPages};

/// Accepted words, files in their grammar that aren't too long, and no fault of shelf or sink end a
/// run with `Done`, or for want of memory.
pub fn good_runs_are_done()
    ensures { GoodRunsAreDone }
{}

/// Where files are told and no fault shows, a run ends with the status of its first refusal and
/// exactly its line, or with `Done` and a report where there is none, or for want of memory.
pub fn runs_end_by_first_refusal()
    ensures { RunsEndByFirstRefusal }
{}

/// Where a schema has two pages for each index, for each put and for each set, and one for each
/// lane, no line is answered `space-full`.
pub fn ample_runs_find_pages()
    ensures { AmpleRunsFindPages }
{}
