//! Laws of cursors.
ghost use Rattle.tree_cursor.specs.CursorLaws.{FramesRefer, GivenFramesRefer};
ghost use Rattle.tree_cursor.specs.CursorLaws.{StoredCursorsRefer, ReferencesStay};

/// A cursor that was stored is what a reference of its leaf says, once that leaf is given back with
/// no change since, and it stays so.
pub fn cursors_are_referred()
    ensures refers { FramesRefer }
    ensures given { GivenFramesRefer }
    ensures stored { StoredCursorsRefer }
    ensures stays { ReferencesStay }
{}
