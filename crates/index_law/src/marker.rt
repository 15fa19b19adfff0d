//! How contracts see an entry of a list, and what is said at its points. No value of these is made.
use std::marker::Model;

/// Seen as a change with the columns of its answer.
pub struct AsMadeChange;

impl Model for AsMadeChange {
    ghost use Rattle.index_law.specs.Answers.{MadeChange, no_change};

    ghost Value = { MadeChange };

    ghost view = { λ _. no_change };
}

/// Seen as what is said at a point of a list.
pub struct AsSaying;

impl Model for AsSaying {
    ghost use Rattle.index_law.specs.Answers.{Saying, Look};

    ghost Value = { Saying };

    ghost view = { λ _. Look };
}
