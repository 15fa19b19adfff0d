//! The ages of the blocks, and the order that they make.
ghost use Rattle.std.specs.Prelude.{◌≡◌, ◌<◌, ◌^◌, ◌*◌, ◌↔◌, Some, None, length, replicate, slice_set};
ghost use Rattle.std.specs.Prelude.{IsTrue, IfSome, IfNone, IfOk};
ghost use Rattle.block_ages.specs.Order.{ComesBefore, IsAhead, IsNext, IsLastByAge};
ghost use Rattle.block_ages.specs.Lows.{AreLows, IsLowestIn, end_of};

use crate::lowest::lowest_in;
use std::alloc::{AllocError, Global};
use std::marker::Model;

/// So many blocks make a run, of which the lowest age is kept.
const RUN: usize = 64;

/// The age of each block: the tick at which it was last used. The lowest age of each run of blocks is
/// kept beside them, so that the block of the lowest age is found in two short passes.
#[derive(Drop)]
pub struct Ages {
    ages: Vec<u64>,
    lows: Vec<u64>,
}

impl Model for Ages {
    ghost use Rattle.std.specs.Prelude.{ℕ, List};
    ghost use Rattle.block_ages.specs.Lows.{AreLows};

    ghost Value = { List ℕ };

    ghost view = { λ a. a.ages.items };

    ghost invariant = { λ a. AreLows a.ages.items a.lows.items };
}

impl Ages {
    /// So many blocks of age 0.
    pub fn new(alloc: Global, count: u32) -> Result<Ages, AllocError>
        ensures { IfOk result (λ ages. ages ≡ replicate count 0) }
    {
        let count = count as usize;
        let runs = (count + (RUN - 1)) / RUN;
        Ok(Ages {
            ages: Vec::from_elem(alloc, 0, count)?,
            lows: Vec::from_elem(alloc, 0, runs)?,
        })
    }

    /// How many blocks there are.
    pub fn len(&self) -> usize
        ensures { result ≡ length self.now }
    {
        self.ages.len()
    }

    /// The block gets this age.
    pub fn set(&mut self, block: u32, age: u64)
        requires { block < length self.old }
        ensures { self.new ≡ slice_set self.old block age }
    {
        let block = block as usize;
        let run = block / RUN;
        let old = self.ages[block];
        self.ages[block] = age;
        if age <= self.lows[run] {
            self.lows[run] = age;
        } else if old == self.lows[run] {
            self.lows[run] = self.ages[lowest_of(self.ages.as_slice(), run)];
        }
    }

    /// The block that comes next behind this one, by age and then by number, or the first of all.
    pub fn next(&self, last: Option<u32>) -> Option<u32>
        requires few { length self.now < 2 ^ 32 }
        requires last { IfSome last (λ b. b < length self.now) }
        ensures found { IfSome result (IsNext self.now last) }
        ensures none { IfNone result (IsLastByAge self.now last) }
    {
        match last {
            Some(block) => next_behind(self.ages.as_slice(), block),
            None => first(self.ages.as_slice(), self.lows.as_slice()),
        }
    }
}

// The first block of all, by age and then by number.
fn first(ages: &[u64], lows: &[u64]) -> Option<u32>
    requires few { length ages.now < 2 ^ 32 }
    requires lows { AreLows ages.now lows.now }
    ensures found { IfSome result (IsNext ages.now None) }
    ensures none { IfNone result (IsLastByAge ages.now None) }
{
    if lows.is_empty() {
        return None;
    }
    let run = lowest_in(lows, 0, lows.len());
    Some(lowest_of(ages, run) as u32)
}

// The block of the run that has the lowest age, and of several the first.
fn lowest_of(ages: &[u64], run: usize) -> usize
    requires { run * 64 < length ages.now }
    ensures { IsLowestIn ages.now (run * 64) (end_of (length ages.now) run) result }
{
    let from = run * RUN;
    lowest_in(ages, from, ages.len().min(from + RUN))
}

// The block that comes next behind this one, by age and then by number.
fn next_behind(ages: &[u64], last: u32) -> Option<u32>
    requires few { length ages.now < 2 ^ 32 }
    requires last { last < length ages.now }
    ensures found { IfSome result (IsNext ages.now (Some last)) }
    ensures none { IfNone result (IsLastByAge ages.now (Some last)) }
{
    let mut next: Option<u32> = None;
    for block in 0..ages.len() as u32 {
        if comes_before(ages, last, block) && is_ahead(ages, block, next) {
            next = Some(block);
        }
    }
    next
}

// Whether the block comes before this one, if there is one.
fn is_ahead(ages: &[u64], block: u32, next: Option<u32>) -> bool
    requires next { IfSome next (λ b. b < length ages.now) }
    requires block { block < length ages.now }
    ensures { IsTrue result ↔ IsAhead ages.now block next }
{
    match next {
        Some(other) => comes_before(ages, block, other),
        None => true,
    }
}

// Whether a block comes before another.
fn comes_before(ages: &[u64], block: u32, other: u32) -> bool
    requires block { block < length ages.now }
    requires other { other < length ages.now }
    ensures { IsTrue result ↔ ComesBefore ages.now block other }
{
    let age = ages[block as usize];
    let limit = ages[other as usize];
    age < limit || (age == limit && block < other)
}
