//! The numbers of a page's head.

ghost use Rattle.std.specs.Prelude.{◌≡◌, length};
ghost use Rattle.page_mirror.specs.Mirror.{Mirror, Mirrors};

use compact_record::{get_u16, put_u16};

pub const N_DIR_SLOTS: usize = 38;

const HEAP_TOP: usize = 40;

const N_HEAP: usize = 42;

const FREE: usize = 44;

const GARBAGE: usize = 46;

const N_RECS: usize = 54;

/// How many slots there are.
pub fn slot_count(page: &[u8]) -> u16
    requires { (m : Mirror) × Mirrors page.now m }
    ensures { (m : Mirror) → Mirrors page.now m → result ≡ length m.slots }
{
    get_u16(page, N_DIR_SLOTS)
}

/// Where the bytes behind all records begin.
pub fn heap_top(page: &[u8]) -> u16
    requires { (m : Mirror) × Mirrors page.now m }
    ensures { (m : Mirror) → Mirrors page.now m → result ≡ m.top }
{
    get_u16(page, HEAP_TOP)
}

/// How many heap numbers are given out.
pub fn heap_count(page: &[u8]) -> u16
    requires { (m : Mirror) × Mirrors page.now m }
    ensures { (m : Mirror) → Mirrors page.now m → result ≡ m.count }
{
    get_u16(page, N_HEAP) - 32768
}

/// The origin at which the free list begins, or 0.
pub fn first_free(page: &[u8]) -> u16
    requires { (m : Mirror) × Mirrors page.now m }
    ensures { (m : Mirror) → Mirrors page.now m → result ≡ m.free }
{
    get_u16(page, FREE)
}

/// How many bytes of records are in no use.
pub fn garbage(page: &[u8]) -> u16
    requires { (m : Mirror) × Mirrors page.now m }
    ensures { (m : Mirror) → Mirrors page.now m → result ≡ m.garbage }
{
    get_u16(page, GARBAGE)
}

/// How many rows there are.
pub fn row_count(page: &[u8]) -> u16
    requires { (m : Mirror) × Mirrors page.now m }
    ensures { (m : Mirror) → Mirrors page.now m → result ≡ m.rows }
{
    get_u16(page, N_RECS)
}

/// Lets the free list begin at this origin.
pub fn set_first_free(page: &mut [u8], at: u16)
    requires { (m : Mirror) × Mirrors page.old m }
    ensures { (m : Mirror) → Mirrors page.old m → Mirrors page.new (record m { free = at }) }
{
    put_u16(page, FREE, at);
}

/// Sets how many bytes of records are in no use.
pub fn set_garbage(page: &mut [u8], bytes: u16)
    requires { (m : Mirror) × Mirrors page.old m }
    ensures { (m : Mirror) → Mirrors page.old m → Mirrors page.new (record m { garbage = bytes }) }
{
    put_u16(page, GARBAGE, bytes);
}

/// Sets how many rows there are.
pub fn set_row_count(page: &mut [u8], count: u16)
    requires { (m : Mirror) × Mirrors page.old m }
    ensures { (m : Mirror) → Mirrors page.old m → Mirrors page.new (record m { rows = count }) }
{
    put_u16(page, N_RECS, count);
}
