//! Keys of two fields, by short names, and the sizes of what has room for them.
ghost use Rattle.std.specs.Prelude.{◌≡◌, length};

use crate::asked;
use crate::asked::Name;
use crate::claims::ensure;
use key_tuple::{Fields, Key};
use map_history::Sizes;
use std::process::Abort;

/// One index with a few pages and one partition.
pub(crate) static SIZES: Sizes = Sizes {
    blocks: 16,
    pages: 16,
    parts: 1,
    cells: 16,
    nodes: 16,
    fold_bits: 64,
    max_changes: 100,
};

/// The first field of a row's key, and the first byte of its second one.
pub(crate) type Row = &'static [u8; 2];

/// The name of the row's key, which has as many bytes as a key may have; or of a tuple that has its
/// first field alone.
pub(crate) fn name_of(row: Row, fields: u8) -> Name {
    let (cut, length) = if fields == 2 {
        (Some(1), 767)
    } else {
        (None, 1)
    };
    Name {
        start: u32::from_be_bytes([row[0], row[1], b'k', b'k']),
        cut,
        length,
    }
}

/// The row's key.
pub(crate) fn key_of<R: AllocGlobal + Abort>(rt: &R, row: Row) -> Key
    ensures { length result.tuple ≡ 2 }
{
    let key = asked::key_of(rt, rt.alloc(), &name_of(row, 2));
    ensure(rt, key.count() == 2, "two fields");
    key
}
