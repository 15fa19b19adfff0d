//! The laws of lanes.
ghost use Rattle.lane_law.specs.Example.{LanesExample, ExampleStands};
ghost use Rattle.lane_law.specs.Laws.{LanesGoOn, RunsJoin, LanesAreLegal, MergedLogsAreLists};
ghost use Rattle.lane_law.specs.Laws.{MergedLogsAreEntries, PassesAreTrails, TrailsAreWhole};
ghost use Rattle.lane_law.specs.Laws.{LanesTeach, TriesAreColumns};

/// A lane goes on line by line.
pub fn lanes_go_on()
    ensures { LanesGoOn }
{}

/// What is known of two runs of lanes is known of both in a row.
pub fn runs_join()
    ensures { RunsJoin }
{}

/// What lanes are told of one space is a legal report.
pub fn lanes_are_legal()
    ensures { LanesAreLegal }
{}

/// The merged logs of the lanes are the lists of changes, change by change.
pub fn merged_logs_are_lists()
    ensures { MergedLogsAreLists }
{}

/// A report whose entries are the merged changes has the entries of the lists.
pub fn merged_logs_are_entries()
    ensures { MergedLogsAreEntries }
{}

/// What is printed of the lanes is what their joined pass did.
pub fn passes_are_trails()
    ensures { PassesAreTrails }
{}

/// A space has no changes but those of such a pass.
pub fn trails_are_whole()
    ensures { TrailsAreWhole }
{}

/// A lane's pass of the learner goes on line by line.
pub fn lanes_teach()
    ensures { LanesTeach }
{}

/// What was tried is as much as the columns of the report tell.
pub fn tries_are_columns()
    ensures { TriesAreColumns }
{}

/// Two lanes of one line each, for which all this holds.
pub fn worked_example()
    ensures { LanesExample }
{}

/// There is a state for these two lanes.
pub fn example_stands()
    ensures { ExampleStands }
{}
