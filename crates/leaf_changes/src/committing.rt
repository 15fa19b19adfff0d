//! A change is committed while the leaf is held, once it was made or ahead of it.
ghost use Rattle.std.specs.Prelude.{◌≡◌, ℕ, None};
ghost use Rattle.latch_space.specs.Passes.{IsSamePass};
ghost use Rattle.latch_space.specs.Spaces.{IsPassOf};
ghost use Rattle.index_law.specs.Meanings.{change_lent, change_by};
ghost use Rattle.forest_law.specs.declared.objects.Frame.{Frame};
ghost use Rattle.forest_law.specs.Opening.{first_frame};
ghost use Rattle.leaf_changes.specs.Commits.{CanCommit, Commits, CanWriteAhead, WritesAhead};
ghost use Rattle.engine_law.specs.Says.{columns_by};

use crate::tree_call::TreeCall;
use engine_law::Found;
use forest_law::blocks_ask_the_same;
use forest_world::ForestPass;
use index_law::{ChangeRef, Deed};
use latch_space::LogFull;
use std::marker::Brand;
use std::sync::Wait;

/// The leaf of which block is to become what, for the proof alone. A call at `Brand` picks it.
pub(crate) trait Becomes {
    ghost block: { ℕ };

    ghost leaf: { Frame };
}

impl Becomes for Brand {
    ghost block = { 0 };

    ghost leaf = { first_frame 0 };
}

impl<R: Wait> TreeCall<'_, R> {
    /// Commits the change that was made on the held leaf. At a full list the caller takes it back.
    pub(crate) fn commit(
        &self,
        pass: &mut ForestPass,
        change: ChangeRef<'_>,
    ) -> Result<u64, LogFull>
        requires own { IsPassOf self.now.space.now pass.old }
        requires held { CanCommit pass.old self.now.index self.now.key.now.tuple
            (change_lent change) }
        ensures own { IsSamePass pass.old pass.new × IsPassOf self.now.space.now pass.new }
        ensures did { Commits pass.old self.now.index (change_lent change.entry)
            (columns_by self.now.found) result pass.new }
    {
        blocks_ask_the_same();
        self.space
            .commit(pass, self.index, &deed(change, self.found), self.wait)
    }

    /// Commits the change before it is made: the leaf becomes known as `X.leaf`, which it isn't
    /// yet. At a full list it stays what it is.
    pub(crate) fn write_ahead<X: Becomes>(
        &self,
        pass: &mut ForestPass,
        change: ChangeRef<'_>,
    ) -> Result<u64, LogFull>
        requires own { IsPassOf self.now.space.now pass.old }
        requires held { CanWriteAhead pass.old X.block self.now.index self.now.key.now.tuple
            (change_lent change) X.leaf }
        ensures own { IsSamePass pass.old pass.new × IsPassOf self.now.space.now pass.new }
        ensures did { WritesAhead pass.old X.block self.now.index (change_lent change.entry)
            (columns_by self.now.found) X.leaf result pass.new }
    {
        blocks_ask_the_same();
        let deed = deed(change, self.found);
        self.space
            .commit_ahead::<Brand, Deed<'_>, R>(pass, self.index, &deed, self.wait)
    }
}

/// The change, with the columns that are told of it.
fn deed(change: ChangeRef<'_>, found: Found) -> Deed<'_>
    ensures { change_by result
        ≡ record { change = change_lent change.entry; columns = columns_by found } }
{
    Deed {
        change,
        how: found.how,
        note: found.note,
    }
}
