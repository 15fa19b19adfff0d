//! The page without rows.

ghost use Rattle.std.specs.Prelude.{◌≡◌, ◌≤◌, length};
ghost use Rattle.page_mirror.specs.Mirror.{Mirrors};
ghost use Rattle.page_mirror.specs.Empty.{Clears, empty_mirror};

use compact_record::{put_bytes, put_u16};

/// Two slots, HEAP_TOP, two heap numbers, no free list and no garbage.
const NUMBERS: [u8; 10] = [0, 2, 0, 120, 128, 2, 0, 0, 0, 0];

/// Infimum and supremum, with their heads.
const ENDS: [u8; 26] = [
    1, 0, 2, 0, 13, 105, 110, 102, 105, 109, 117, 109, 0, 1, 0, 11, 0, 0, 115, 117, 112, 114, 101,
    109, 117, 109,
];

/// Takes all records and slots away but those of infimum and supremum; the bytes around the head's
/// numbers stay.
pub fn write_empty(page: &mut [u8])
    requires { length page.old ≡ 16384 }
    ensures { Mirrors page.new (empty_mirror page.old) }
{
    put_bytes(page, 38, &NUMBERS);
    put_u16(page, 54, 0);
    put_bytes(page, 94, &ENDS);
    clear(page, 120, 16376);
    put_u16(page, 16374, 99);
    put_u16(page, 16372, 112);
}

/// Writes zeros.
fn clear(page: &mut [u8], from: usize, to: usize)
    requires order { from ≤ to }
    requires room { to ≤ length page.old }
    ensures { Clears page.old page.new from to }
{
    for k in from..to {
        page[k] = 0;
    }
}
