//! Where a key is likely to stand among rows, told by the first bytes of their keys.
ghost use Rattle.std.specs.Prelude.{◌<◌, ◌≤◌};

use key_tuple::Fields;
use std::alloc::{AllocError, Global};

/// The heads of rows in their order. They only tell where a search looks first: what it finds never
/// depends on them, so no clause speaks of them.
#[derive(Drop)]
pub(crate) struct Heads {
    heads: Vec<u64>,
}

impl Heads {
    pub(crate) fn new(alloc: Global) -> Heads {
        Heads {
            heads: Vec::new(alloc),
        }
    }

    pub(crate) fn clear(&mut self) {
        self.heads.clear();
    }

    /// Notes a row that comes before the one with that number. Without memory none is noted from
    /// then on.
    pub(crate) fn insert<A: Fields>(&mut self, at: usize, key: &A) {
        if at <= self.heads.len() && self.heads.insert(at, head_of(key)).is_err() {
            self.heads.clear();
        }
    }

    /// Forgets the row with that number.
    pub(crate) fn remove(&mut self, at: usize) {
        if at < self.heads.len() {
            self.heads.remove(at);
        }
    }

    /// How many heads are below that of a tuple.
    pub(crate) fn below<A: Fields>(&self, tuple: &A) -> usize {
        let head = head_of(tuple);
        let mut low = 0;
        let mut high = self.heads.len();
        while low < high {
            let middle = low + (high - low) / 2;
            if self.heads[middle] < head {
                low = middle + 1;
            } else {
                high = middle;
            }
        }
        low
    }

    pub(crate) fn copy(&self) -> Result<Heads, AllocError> {
        Ok(Heads {
            heads: self.heads.clone()?,
        })
    }
}

/// Which row a search looks at next, of those from `low` to below `high`: those beside the likely
/// place first, and then the middle one.
pub(crate) fn next_look(low: usize, high: usize, likely: usize) -> usize
    requires { low < high }
    ensures from { low ≤ result }
    ensures below { result < high }
{
    if low < likely && likely <= high {
        likely - 1
    } else if low == likely || low.checked_sub(1) == Some(likely) {
        low
    } else {
        low + (high - low) / 2
    }
}

/// The first eight bytes of a key's first field as one number, the first byte foremost.
fn head_of<A: Fields>(key: &A) -> u64 {
    if key.count() == 0 {
        return 0;
    }
    match key.field(0) {
        [a, b, c, d, e, f, g, h, ..] => u64::from_be_bytes([*a, *b, *c, *d, *e, *f, *g, *h]),
        few => short_head(few),
    }
}

/// The same of fewer bytes, with zeros behind them.
fn short_head(bytes: &[u8]) -> u64 {
    let mut head = 0;
    for i in 0..8 {
        let byte = if i < bytes.len() { bytes[i] } else { 0 };
        head = head << 8 | u64::from(byte);
    }
    head
}
