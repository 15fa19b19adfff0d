//! A run of searches in one index with one leaf.
ghost use Rattle.std.specs.Prelude.{◌<◌, ℕ};
ghost use Rattle.learning.specs.Bounds.{IsEventOf};

use crate::claims::ensure;
use key_tuple::Match;
use learning::{
    BlockFigures, Descent, Event, Figures, Info, is_descent_of, learn, learn_block, should_build,
};
use std::process::Abort;

/// What the hash would do when it is asked.
pub(crate) enum Hash {
    Answers,
    Fails,
    IsShort,
}

/// How often a key is sought, how far the rows beside its position agree, how many rows the leaf has, and
/// what the hash would do.
pub(crate) type Search = (u32, Match, Match, u16, Hash);

/// How often each thing happened in a run, and when a build was first due.
#[derive(Clone, Copy)]
pub(crate) struct Counts {
    pub(crate) hit: u32,
    pub(crate) cold: u32,
    pub(crate) short: u32,
    pub(crate) unequal: u32,
    pub(crate) built: u32,
    pub(crate) same: u32,
    pub(crate) arena: u32,
    pub(crate) first_due: u32,
}

/// Searches in an index of so many fields, with room for its entries or with none, and what they count.
pub(crate) struct Lesson {
    pub(crate) unique: u8,
    pub(crate) room: bool,
    pub(crate) searches: &'static [Search],
    pub(crate) counts: Counts,
}

/// One index with one leaf.
#[derive(Clone, Copy)]
struct Run {
    unique: u8,
    info: Info,
    block: BlockFigures,
    counts: Counts,
    number: u32,
    room: bool,
}

pub(crate) const NOTHING: Counts = Counts {
    hit: 0,
    cold: 0,
    short: 0,
    unequal: 0,
    built: 0,
    same: 0,
    arena: 0,
    first_due: 0,
};

fn start(unique: u8, room: bool) -> Run {
    Run {
        unique,
        info: Info::opening(),
        block: BlockFigures::opening(),
        counts: NOTHING,
        number: 0,
        room,
    }
}

fn one_more(count: &mut u32) {
    *count = count.saturating_add(1);
}

fn teach(rt: &impl Abort, run: &mut Run, event: &Event)
    requires { (unique : ℕ) × IsEventOf unique event.now }
{
    ensure(rt, run.info.events < u32::MAX, "room for an event");
    run.info = learn(&run.info, event);
}

fn go_down(rt: &impl Abort, run: &mut Run, search: &Search) {
    let (_, low, up, rows, _) = search;
    let descent = Descent {
        unique: run.unique,
        figures: Figures { low: *low, up: *up },
        block: run.block,
        rows: *rows,
    };
    ensure(rt, run.info.events < u32::MAX, "room for an event");
    ensure(rt, is_descent_of(run.unique, &descent), "a descent");
    let event = Event::Descent(descent);
    let due = should_build(&run.info, &event);
    run.block = learn_block(&run.info, &descent);
    run.info = learn(&run.info, &event);
    if due {
        build(run);
    }
}

fn build(run: &mut Run) {
    if run.counts.first_due == 0 {
        run.counts.first_due = run.number;
    }
    let advice = Some(run.block.advice);
    if run.block.built == advice {
        one_more(&mut run.counts.same);
    } else if run.room {
        one_more(&mut run.counts.built);
        run.block.built = advice;
    } else {
        one_more(&mut run.counts.arena);
        run.block.built = None;
    }
    run.block.helps = 0;
}

/// Asks the hash, if that is promised something: whether it answers.
fn ask(rt: &impl Abort, run: &mut Run, hash: &Hash) -> bool {
    if run.info.potential == 0 || !run.info.last {
        one_more(&mut run.counts.cold);
        return false;
    }
    match hash {
        Hash::Answers => {
            one_more(&mut run.counts.hit);
            teach(rt, run, &Event::Hit);
            true
        }
        Hash::Fails => {
            one_more(&mut run.counts.unequal);
            teach(rt, run, &Event::Miss);
            false
        }
        Hash::IsShort => {
            one_more(&mut run.counts.short);
            false
        }
    }
}

/// Makes the search as often as it says.
fn seek(rt: &impl Abort, run: &mut Run, search: &Search) {
    let (times, _, _, _, hash) = search;
    run.number = 0;
    for _ in 0..*times {
        one_more(&mut run.number);
        if !ask(rt, run, hash) {
            go_down(rt, run, search);
        }
    }
}

fn numbers(counts: &Counts) -> [u32; 8] {
    [
        counts.hit,
        counts.cold,
        counts.short,
        counts.unequal,
        counts.built,
        counts.same,
        counts.arena,
        counts.first_due,
    ]
}

/// What is learnt by these searches, which count what they have to.
pub(crate) fn learnt(rt: &impl Abort, lesson: &Lesson) -> Info {
    let mut run = start(lesson.unique, lesson.room);
    for search in lesson.searches {
        seek(rt, &mut run, search);
    }
    let as_told = numbers(&run.counts) == numbers(&lesson.counts);
    ensure(rt, as_told, "these counts");
    run.info
}
