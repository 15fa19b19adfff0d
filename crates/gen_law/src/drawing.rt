//! What is drawn.
ghost use Rattle.gen_law.specs.Lanes.{LanesHaveTheirOwnKeys};
ghost use Rattle.gen_law.specs.Worked.{FirstLinesAreDrawn};

/// The first line of lane 1 for the number 0, reckoned by hand, is what the definitions give.
pub fn first_lines_are_drawn()
    ensures { FirstLinesAreDrawn }
{}

/// No lane asks for a key of another lane.
pub fn lanes_have_their_own_keys()
    ensures { LanesHaveTheirOwnKeys }
{}
