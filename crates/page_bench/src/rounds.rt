//! Rounds of work on a page, and the least time that each part of one took.
use key_tuple::{Key, Value};
use std::time::{Clock, Duration, Instant};

/// A page with rows.
pub trait Rows {
    /// Puts a row in, unless its key is there or there is no room.
    fn put(&mut self, key: &Key, value: &Value);

    /// Whether there is a row with this key, and a value of so many bytes.
    fn has(&self, key: &Key, len: usize) -> bool;

    /// Takes the row with this key out, if there is one.
    fn take(&mut self, key: &Key);
}

/// What is put in: each key with the value.
#[derive(Drop)]
pub struct Load {
    pub keys: Vec<Key>,
    pub value: Value,
}

/// How long the puts, the searches and the removals of a round took.
#[derive(Clone, Copy)]
pub struct Times {
    pub puts: Duration,
    pub searches: Duration,
    pub removals: Duration,
}

/// How many rows were found, and the least time of each part.
#[derive(Clone, Copy)]
pub struct Tally {
    pub found: u64,
    pub least: Times,
}

/// All rounds on one page.
pub fn work<C: Clock, R: Rows>(clock: &C, page: &mut R, load: &Load, rounds: u32) -> Option<Tally> {
    let mut tally = Tally {
        found: 0,
        least: LONGEST,
    };
    for _round in 0..rounds {
        tally = tally.with(round(clock, page, load)?);
    }
    Some(tally)
}

const LONGEST: Times = Times {
    puts: Duration::MAX,
    searches: Duration::MAX,
    removals: Duration::MAX,
};

impl Tally {
    fn with(self, other: Tally) -> Tally {
        Tally {
            found: self.found.saturating_add(other.found),
            least: Times {
                puts: self.least.puts.min(other.least.puts),
                searches: self.least.searches.min(other.least.searches),
                removals: self.least.removals.min(other.least.removals),
            },
        }
    }
}

fn round<C: Clock, R: Rows>(clock: &C, page: &mut R, load: &Load) -> Option<Tally> {
    let start = Instant::now(clock).ok()?;
    put_all(page, load);
    let put = Instant::now(clock).ok()?;
    let found = count_all(page, load);
    let searched = Instant::now(clock).ok()?;
    take_all(page, load);
    let taken = Instant::now(clock).ok()?;
    Some(Tally {
        found,
        least: Times {
            puts: put.duration_since(start),
            searches: searched.duration_since(put),
            removals: taken.duration_since(searched),
        },
    })
}

#[inline(never)]
fn put_all<R: Rows>(page: &mut R, load: &Load) {
    for key in &load.keys {
        page.put(key, &load.value);
    }
}

#[inline(never)]
fn count_all<R: Rows>(page: &R, load: &Load) -> u64 {
    let len = load.value.as_bytes().len();
    let mut found = 0u64;
    for key in &load.keys {
        if page.has(key, len) {
            found = found.saturating_add(1);
        }
    }
    found
}

#[inline(never)]
fn take_all<R: Rows>(page: &mut R, load: &Load) {
    for key in &load.keys {
        page.take(key);
    }
}
