//! Laws of runs and of their rows.
ghost use Rattle.hash_law.specs.Laws.{OneOfEachRun, RightMirrorsLeft, NodesFollowRows, NodesNameRows};

/// A run among others has one entry, its first node or its last, and changes no other's.
pub fn one_of_each_run()
    ensures { OneOfEachRun }
{}

/// Right is left, read from the end.
pub fn right_mirrors_left()
    ensures { RightMirrorsLeft }
{}

/// Nodes follow their rows.
pub fn nodes_follow_rows()
    ensures { NodesFollowRows }
{}

/// A node that a hashed leaf has entered names one of its rows.
pub fn nodes_name_rows()
    ensures { NodesNameRows }
{}
