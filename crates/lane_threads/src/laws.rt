//! What follows of lanes that worked together.
ghost use Rattle.lane_threads.specs.Together.{RunsAreLegal};

/// The report of such a run is legal.
pub fn runs_are_legal()
    ensures { RunsAreLegal }
{}
