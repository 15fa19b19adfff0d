//! The laws of generated runs.
ghost use Rattle.gen_runs.specs.Laws.{RepliesAddUp, FourAddUp};

/// In a legal report of a generated run no list of changes is full, and the replies of each lane are
/// together as many as its lines.
pub fn replies_add_up()
    ensures { RepliesAddUp }
{}

/// Where there are pages enough, those of a lane are as many without the lines for which no page was
/// left.
pub fn four_add_up()
    ensures { FourAddUp }
{}
