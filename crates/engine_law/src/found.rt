//! How the leaf of a call was found.
ghost use Rattle.std.specs.Prelude.{◌≡◌, true};
ghost use Rattle.map_history.specs.Columns.{may_stand};

use map_history::{How, Note};

/// How the leaf of a call was found, and what was learnt from that: the columns of what it tells.
#[derive(Clone, Copy)]
pub struct Found {
    pub how: How,
    pub note: Note,
    pub ghost stands: { may_stand (record { how = how; note = note }) ≡ true },
}
