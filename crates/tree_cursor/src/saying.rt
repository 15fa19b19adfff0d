//! Rows are said as a piece of a scan.
ghost use Rattle.std.specs.Prelude.{◌≡◌, ◌<◌, None, drop};
ghost use Rattle.key_tuple.specs.KeyPlace.{KeyPlace, Start, End};
ghost use Rattle.latch_law.specs.Fitting.{DidRead, MayAnswer};
ghost use Rattle.latch_space.specs.Has.{SameHands};
ghost use Rattle.latch_space.specs.Passes.{view, IsSamePass};
ghost use Rattle.latch_space.specs.Spaces.{IsPassOf};
ghost use Rattle.map_history.specs.Operation.{operation_by};
ghost use Rattle.index_law.specs.Answers.{Piece};
ghost use Rattle.index_law.specs.Rightness.{IsRight};
ghost use Rattle.forest_law.specs.Law.{IsLawful};
ghost use Rattle.forest_law.specs.References.{IsReference};

use forest_world::{ForestPass, ForestSpace};
use index_law::AsSaying;
use latch_law::Means;
use map_history::{How, Note, OpRef, Rows};
use std::marker::{Brand, PhantomData};

/// The range of a piece, for the proof alone: a call at `Brand` picks its ends.
pub(crate) trait Range {
    /// Where it begins.
    ghost low: { KeyPlace };

    /// Where it ends.
    ghost high: { KeyPlace };
}

impl Range for Brand {
    ghost low = { Start };

    ghost high = { End };
}

/// The rows of a list from a number on, as those of a range of an index, with the two columns of the
/// piece that they are. It takes no memory.
#[derive(Clone, Copy)]
struct RowsOf<'a, X> {
    op: OpRef<'a>,
    rows: &'a Rows,
    first: usize,
    how: How,
    note: Note,
    range: PhantomData<X>,
}

impl<X: Range> Means<AsSaying> for RowsOf<'_, X> {
    ghost meaning = { λ p. Piece (operation_by p.op).ask X.low X.high (drop p.first p.rows.now)
        None (record { how = p.how; note = p.note }) };
}

/// Says the rows of a list from a number on, as a piece of the operation and of the range that the
/// proof picks, at the end of the index's list, and tells that point.
pub(crate) fn say_piece(
    space: &ForestSpace,
    pass: &mut ForestPass,
    index: u32,
    op: OpRef<'_>,
    rows: &Rows,
    first: usize,
    how: How,
    note: Note,
) -> u64
    ghost range: { KeyPlace × KeyPlace }
    requires own { IsPassOf space.now pass.old }
    requires index { index < space.now.terms.indexes }
    requires rule { MayAnswer IsLawful IsRight IsReference (view pass.old) index
        (Piece (operation_by op).ask range.0 range.1 (drop first rows.now) None
        (record { how = how; note = note })) }
    ensures own { IsSamePass pass.old pass.new × IsPassOf space.now pass.new }
    ensures told { DidRead IsLawful IsRight IsReference (view pass.old) index
        (Piece (operation_by op.entry).ask range.0 range.1 (drop first rows.now) None
        (record { how = how; note = note })) result (view pass.new) }
    ensures kept { SameHands pass.old pass.new }
{
    say_rows::<Brand>(space, pass, index, op, rows, first, how, note)
}

fn say_rows<X: Range>(
    space: &ForestSpace,
    pass: &mut ForestPass,
    index: u32,
    op: OpRef<'_>,
    rows: &Rows,
    first: usize,
    how: How,
    note: Note,
) -> u64
    requires own { IsPassOf space.now pass.old }
    requires index { index < space.now.terms.indexes }
    requires rule { MayAnswer IsLawful IsRight IsReference (view pass.old) index
        (Piece (operation_by op).ask X.low X.high (drop first rows.now) None
        (record { how = how; note = note })) }
    ensures own { IsSamePass pass.old pass.new × IsPassOf space.now pass.new }
    ensures told { DidRead IsLawful IsRight IsReference (view pass.old) index
        (Piece (operation_by op.entry).ask X.low X.high (drop first rows.now) None
        (record { how = how; note = note })) result (view pass.new) }
    ensures kept { SameHands pass.old pass.new }
{
    let said: RowsOf<'_, X> = RowsOf {
        op,
        rows,
        first,
        how,
        note,
        range: PhantomData,
    };
    space.read_point(pass, index, &said)
}
