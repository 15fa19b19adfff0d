//! The two things in a record's head that change while it stands.

ghost use Rattle.std.specs.Prelude.{◌≡◌, ◌+◌, ◌-◌, ◌*◌, ◌/◌, ◌^◌, ◌≤◌, ◌<◌, length, slice_index};
ghost use Rattle.compact_record.specs.Bytes.{SameOutside};
ghost use Rattle.page_mirror.specs.Words.{next_origin, owned_count};

use compact_record::{get_u16, put_u16};

pub fn get_next(page: &[u8], at: u16) -> u16
    requires low { 5 ≤ at }
    requires high { at ≤ length page.now }
    ensures { result ≡ next_origin page.now at }
{
    at.wrapping_add(get_u16(page, at as usize - 2))
}

pub fn put_next(page: &mut [u8], at: u16, next: u16)
    requires low { 5 ≤ at }
    requires high { at ≤ length page.old }
    ensures value { next_origin page.new at ≡ next }
    ensures kept { SameOutside page.old page.new (at - 2) at }
{
    put_u16(page, at as usize - 2, next.wrapping_sub(at));
}

pub fn get_owned(page: &[u8], at: u16) -> u8
    requires low { 5 ≤ at }
    requires high { at ≤ length page.now }
    ensures { result ≡ owned_count page.now at }
{
    page[at as usize - 5] % 16
}

pub fn put_owned(page: &mut [u8], at: u16, count: u8)
    requires low { 5 ≤ at }
    requires high { at ≤ length page.old }
    requires small { count < 16 }
    ensures value { owned_count page.new at ≡ count }
    ensures info { slice_index page.new (at - 5) / 16 ≡ slice_index page.old (at - 5) / 16 }
    ensures kept { SameOutside page.old page.new (at - 5) (at - 4) }
{
    let byte = page[at as usize - 5];
    page[at as usize - 5] = byte / 16 * 16 + count;
}
