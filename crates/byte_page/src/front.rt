//! The bytes of a page around the numbers of its rows.
ghost use Rattle.std.specs.Prelude.{◌≡◌, ◌+◌, ◌≤◌, length};
ghost use Rattle.compact_record.specs.Bytes.{SameOutside};
ghost use Rattle.index_page.specs.Page.{IsNeighbour};
ghost use Rattle.byte_page.specs.declared.TheConstants.{PAGE_BYTES};
ghost use Rattle.byte_page.specs.Form.{u32_at, neighbour, head_in_bytes};

use crate::PAGE_BYTES;
use compact_record::{get_u16, put_u16};
use index_page::{NO_PAGE, PageHead};

const NUMBER: usize = 4;

const PREVIOUS: usize = 8;

const NEXT: usize = 12;

const TYPE: usize = 24;

const DIRECTION: usize = 50;

const LEVEL: usize = 64;

const INDEX: usize = 66;

/// The type of a page of an index.
const INDEX_TYPE: u16 = 17_855;

/// The direction of a page into which no row was put.
const NO_DIRECTION: u16 = 5;

/// The head that the bytes spell.
pub(crate) fn read_front(page: &[u8], fields: u8) -> PageHead
    requires { length page.now ≡ PAGE_BYTES }
    ensures { result ≡ head_in_bytes page.now fields }
{
    PageHead {
        number: get_u32(page, NUMBER),
        index: get_u32(page, INDEX + 4),
        level: get_u16(page, LEVEL),
        prev: get_neighbour(page, PREVIOUS),
        next: get_neighbour(page, NEXT),
        fields,
    }
}

/// Writes a head, and what each page has beside it.
pub(crate) fn write_front(page: &mut [u8], head: &PageHead)
    requires page { length page.old ≡ PAGE_BYTES }
    requires prev { IsNeighbour head.now.prev }
    requires next { IsNeighbour head.now.next }
    ensures head { head_in_bytes page.new head.now.fields ≡ head.now }
    ensures len { length page.new ≡ PAGE_BYTES }
{
    put_u32(page, NUMBER, head.number);
    put_links(page, head.prev, head.next);
    put_u16(page, TYPE, INDEX_TYPE);
    put_u16(page, DIRECTION, NO_DIRECTION);
    put_u16(page, LEVEL, head.level);
    put_u32(page, INDEX, 0);
    put_u32(page, INDEX + 4, head.index);
}

/// Writes the numbers of the neighbours.
pub(crate) fn put_links(page: &mut [u8], prev: Option<u32>, next: Option<u32>)
    requires page { length page.old ≡ PAGE_BYTES }
    requires prev { IsNeighbour prev }
    requires next { IsNeighbour next }
    ensures prev { neighbour (u32_at page.new 8) ≡ prev }
    ensures next { neighbour (u32_at page.new 12) ≡ next }
    ensures kept { SameOutside page.old page.new 8 16 }
{
    put_neighbour(page, PREVIOUS, prev);
    put_neighbour(page, NEXT, next);
}

fn put_neighbour(page: &mut [u8], at: usize, page_number: Option<u32>)
    requires room { at + 4 ≤ length page.old }
    requires neighbour { IsNeighbour page_number }
    ensures value { neighbour (u32_at page.new at) ≡ page_number }
    ensures kept { SameOutside page.old page.new at (at + 4) }
{
    put_u32(page, at, page_number.unwrap_or(NO_PAGE));
}

fn get_neighbour(page: &[u8], at: usize) -> Option<u32>
    requires { at + 4 ≤ length page.now }
    ensures { result ≡ neighbour (u32_at page.now at) }
{
    let number = get_u32(page, at);
    if number == NO_PAGE {
        None
    } else {
        Some(number)
    }
}

fn get_u32(page: &[u8], at: usize) -> u32
    requires { at + 4 ≤ length page.now }
    ensures { result ≡ u32_at page.now at }
{
    u32::from(get_u16(page, at)) * 65_536 + u32::from(get_u16(page, at + 2))
}

fn put_u32(page: &mut [u8], at: usize, value: u32)
    requires { at + 4 ≤ length page.old }
    ensures value { u32_at page.new at ≡ value }
    ensures kept { SameOutside page.old page.new at (at + 4) }
{
    put_u16(page, at, (value / 65_536) as u16);
    put_u16(page, at + 2, (value % 65_536) as u16);
}
