//! What is said of the leaf that is held, or where there is no page for a row.
ghost use Rattle.std.specs.Prelude.{◌≡◌, ◌↔◌, IsTrue, None};
ghost use Rattle.latch_space.specs.Has.{SameHands};
ghost use Rattle.latch_space.specs.Passes.{view, IsSamePass};
ghost use Rattle.latch_space.specs.Spaces.{IsPassOf};
ghost use Rattle.map_history.specs.Operation.{operation_by};
ghost use Rattle.index_law.specs.Meanings.{lent_row};
ghost use Rattle.map_history.specs.Told.{columns_told};
ghost use Rattle.engine_law.specs.Says.{SaysOnce, SeesFull, OnlyLooks};
ghost use Rattle.leaf_changes.specs.Says.{CanSay};
ghost use Rattle.engine_law.specs.Says.{columns_by};
ghost use Rattle.leaf_changes.specs.Says.{told_made};

use crate::tree_call::TreeCall;
use engine_law::Found;
use forest_world::ForestPass;
use index_law::Say;
use map_history::{OpRef, Reply, RowBuf, Told};

impl<R> TreeCall<'_, R> {
    /// Answers the operation at the end of the list, without a change.
    pub(crate) fn say(
        &self,
        pass: &mut ForestPass,
        op: OpRef<'_>,
        reply: Reply,
        row: Option<&RowBuf>,
    ) -> Told
        requires own { IsPassOf self.now.space.now pass.old }
        requires held { CanSay pass.old self.now.index self.now.key.now.tuple (operation_by op).ask
            reply (lent_row row) }
        ensures own { IsSamePass pass.old pass.new × IsPassOf self.now.space.now pass.new }
        ensures did { SaysOnce (view pass.old) (view pass.new) self.now.index
            (operation_by op.entry).ask result (lent_row row.entry) }
        ensures kept { SameHands pass.old pass.new }
        ensures reply { result.reply ≡ reply }
        ensures columns { columns_told result ≡ columns_by self.now.found }
    {
        let how = self.found.how;
        let note = self.found.note;
        let point = self.space.read_point(
            pass,
            self.index,
            &Say::Reply {
                op,
                reply,
                row,
                bound: None,
                how,
                note,
            },
        );
        Told {
            reply,
            point: Some(point),
            how,
            note,
        }
    }

    /// The list of the index has as many changes as it may. It is read while the leaf is held.
    pub(crate) fn is_full(&self, pass: &mut ForestPass, most: u64) -> bool
        requires own { IsPassOf self.now.space.now pass.old }
        requires most { most ≡ self.now.space.now.terms.max_changes }
        ensures own { IsSamePass pass.old pass.new × IsPassOf self.now.space.now pass.new }
        ensures kept { SameHands pass.old pass.new }
        ensures looked { OnlyLooks (view pass.old) (view pass.new) self.now.index }
        ensures full { IsTrue result ↔ SeesFull (view pass.new) self.now.index }
    {
        self.space.read_point(pass, self.index, &Say::Look) >= most
    }
}

/// What is told of a change that was made at the point.
pub(crate) fn made(found: Found, point: u64) -> Told
    ensures { result ≡ told_made found point }
{
    Told {
        reply: Reply::Ok,
        point: Some(point),
        how: found.how,
        note: found.note,
    }
}
