//! The bytes of records against a page's dump.
ghost use Rattle.std.specs.Prelude.{◌∷◌, []};

use crate::claims::ensure;
use compact_record::{CHILD_BYTES, RecordHead, RecordKind, write};
use key_tuple::{Blank, Fields};

/// A key of one byte.
#[derive(Drop)]
pub(crate) struct OneByte {
    pub(crate) bytes: [u8; 1],
}

impl Fields for OneByte {
    ghost fields_of = { λ k. k.bytes ∷ [] };

    fn count(&self) -> u8 {
        1
    }

    fn field(&self, _i: u8) -> &[u8] {
        &self.bytes
    }
}

#[test]
fn a_row_has_the_bytes_of_the_dump(rt: HostRuntime) {
    let mut page = [0xee; 130];
    let head = RecordHead {
        kind: RecordKind::Row,
        heap_number: 2,
    };
    let place = write(&mut page, 120, head, &OneByte { bytes: *b"a" }, b"x");
    let is_row = page[119..] == [0xee, 1, 1, 0, 0, 0x10, 0, 0, 0x61, 0x78, 0xee];
    ensure(&rt, place == 127 && is_row, "the row's bytes");
}

#[test]
fn a_leftmost_pointer_has_its_flag(rt: HostRuntime) {
    let mut page = [0xee; 12];
    let head = RecordHead {
        kind: RecordKind::LeftmostPointer,
        heap_number: 3,
    };
    let tail: [u8; CHILD_BYTES] = [0, 0, 0, 5];
    let place = write(&mut page, 1, head, &Blank { count: 1 }, &tail);
    let is_pointer = page == [0xee, 0, 0x10, 0, 0x19, 0, 0, 0, 0, 0, 5, 0xee];
    ensure(&rt, place == 7 && is_pointer, "the pointer's bytes");
}
