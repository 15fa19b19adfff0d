//! Lanes that put rows in and get them again, in many orders.
use crate::setup::MEMORY;
use std::process::Abort;

/// Which numbers come, and in which order: the first, and each next one by a factor and a step,
/// below a limit.
#[derive(Clone, Copy)]
pub(crate) struct Numbers {
    pub(crate) first: u64,
    pub(crate) factor: u64,
    pub(crate) step: u64,
    pub(crate) limit: u64,
    pub(crate) count: u64,
}

/// How rows look: how many bytes stand before the number in a key, and how many a value has.
#[derive(Clone, Copy)]
pub(crate) struct Look {
    pub(crate) before: usize,
    pub(crate) value: usize,
}

impl Numbers {
    fn after(&self, number: u64) -> u64 {
        number
            .wrapping_mul(self.factor)
            .wrapping_add(self.step)
            .checked_rem(self.limit)
            .unwrap_or(0)
    }
}

/// So many of this byte.
pub(crate) fn bytes_of<R: AllocGlobal + Abort>(rt: &R, byte: char, count: usize) -> String {
    let mut text = String::with_capacity(rt.alloc(), count).expect(rt, MEMORY);
    for _ in 0..count {
        text.push(byte).expect(rt, MEMORY);
    }
    text
}

/// Adds a line for each number: these words, its key with so many bytes before seven digits, and
/// this space and value behind it.
fn add_lines<R: AllocGlobal + Abort>(
    rt: &R,
    lane: &mut String,
    words: &str,
    numbers: Numbers,
    before: usize,
    space: &str,
    value: &str,
) {
    let before = bytes_of(rt, 'k', before);
    let mut number = numbers.first;
    for _ in 0..numbers.count {
        let digits = number.wrapping_add(1_000_000);
        write!(lane, "{words} {before}{digits}{space}{value}\n").expect(rt, MEMORY);
        number = numbers.after(number);
    }
}

/// Adds a put of each row.
pub(crate) fn add_puts<R: AllocGlobal + Abort>(
    rt: &R,
    lane: &mut String,
    numbers: Numbers,
    look: Look,
) {
    let value = bytes_of(rt, 'v', look.value);
    add_lines(rt, lane, "put t", numbers, look.before, " ", value.as_str());
}

/// Adds a line that asks for each row in these words: those of a get, a del, or a seek in a mode.
pub(crate) fn add_asks<R: AllocGlobal + Abort>(
    rt: &R,
    lane: &mut String,
    words: &str,
    numbers: Numbers,
    look: Look,
) {
    add_lines(rt, lane, words, numbers, look.before, "", "");
}

/// A put of each row, and then a get of each.
pub(crate) fn puts_and_gets<R: AllocGlobal + Abort>(
    rt: &R,
    numbers: Numbers,
    look: Look,
) -> String {
    let mut lane = String::new(rt.alloc());
    add_puts(rt, &mut lane, numbers, look);
    add_asks(rt, &mut lane, "get t", numbers, look);
    lane
}

/// The rows are put, taken out and got, and put and got once more.
pub(crate) fn comes_and_goes<R: AllocGlobal + Abort>(
    rt: &R,
    numbers: Numbers,
    look: Look,
) -> String {
    let mut lane = puts_and_gets(rt, numbers, look);
    add_asks(rt, &mut lane, "del t", numbers, look);
    add_asks(rt, &mut lane, "get t", numbers, look);
    add_puts(rt, &mut lane, numbers, look);
    add_asks(rt, &mut lane, "get t", numbers, look);
    lane
}
