//! The learner from outside: whole runs, a race, a worn word, and threads.
ghost use Rattle.std.specs.Prelude.{◌≡◌, ◌<◌};
ghost use Rattle.search_info.specs.Passes.{IsLearnPassOf, HasUnique};

use crate::claims::ensure;
use key_tuple::Match;
use learning::{BlockFigures, Event, Figures, Info, is_info_of, pack};
use search_info::{Learn, LearnPass, Learner};
use std::process::Abort;
use std::thread::join;

const NONE: Match = Match {
    fields: 0,
    bytes: 0,
};

const ONE: Match = Match {
    fields: 1,
    bytes: 0,
};

/// A learner of one index with one field.
fn open_one<R: AllocGlobal + Abort>(rt: &R, first: &Info, passes: u32) -> (Learner, LearnPass)
    requires one { 0 < passes }
    ensures own { IsLearnPassOf result.0 result.1 × HasUnique result.0 0 1 }
{
    ensure(rt, is_info_of(1, first), "an info of one field");
    let Ok(opened) = Learner::open(rt.alloc(), [*first].as_slice(), [1].as_slice(), passes) else {
        panic!(rt; "no memory")
    };
    opened
}

/// Cuts the pass in two, which has all numbers up to this one.
fn cut<R: Abort>(rt: &R, learner: &Learner, pass: &mut LearnPass, all: u32) -> LearnPass
    requires own { IsLearnPassOf learner.now pass.old }
    ensures own { IsLearnPassOf learner.now pass.new }
    ensures given { IsLearnPassOf learner.now result }
{
    let (low, end) = pass.numbers();
    ensure(rt, low == 0 && end == all && end >= 2, "all numbers");
    learner.split(pass).expect(rt, "another pass")
}

/// Whether a descent on the block lets build.
fn descend(learner: &Learner, pass: &mut LearnPass, block: &mut BlockFigures, up: Match) -> bool
    requires own { IsLearnPassOf learner.now pass.old × HasUnique learner.now 0 1 }
    requires near { (up.fields < 2) × (up.bytes ≡ 0) }
    ensures { IsLearnPassOf learner.now pass.new }
{
    if block.advice.asked_fields() > 1 {
        return false;
    }
    let figures = Figures { low: NONE, up };
    let learn = learner.after_descent(pass, 0, 1, &figures, block, 3);
    matches!(&learn, Learn::Learnt { build: true, .. })
}

/// Three puts into an empty leaf, then searches for one of the keys: the 132nd lets build, and no
/// other does.
fn builds_once(learner: &Learner, pass: &mut LearnPass) -> bool
    requires own { IsLearnPassOf learner.now pass.old × HasUnique learner.now 0 1 }
    ensures { IsLearnPassOf learner.now pass.new }
{
    let mut block = BlockFigures::opening();
    let mut as_told = true;
    for i in 0..134 {
        let up = if i < 3 { NONE } else { ONE };
        let builds = descend(learner, pass, &mut block, up);
        if builds {
            block.built = Some(block.advice);
            block.helps = 0;
        }
        as_told = as_told && builds == (i == 131);
    }
    as_told
}

/// Whether a hit or a miss is counted, and doesn't let build.
fn counts(learner: &Learner, pass: &mut LearnPass, is_hit: bool) -> bool
    requires own { IsLearnPassOf learner.now pass.old × HasUnique learner.now 0 1 }
    ensures { IsLearnPassOf learner.now pass.new }
{
    let learn = if is_hit {
        learner.after_hit(pass, 0)
    } else {
        learner.after_miss(pass, 0)
    };
    matches!(&learn, Learn::Learnt { build: false, .. })
}

/// Whether 169 hits are counted, and none lets build.
fn counts_hits(learner: &Learner, pass: &mut LearnPass) -> bool
    requires own { IsLearnPassOf learner.now pass.old × HasUnique learner.now 0 1 }
    ensures { IsLearnPassOf learner.now pass.new }
{
    let mut counted = true;
    for _ in 0..169 {
        counted = counts(learner, pass, true) && counted;
    }
    counted
}

/// Whether the build and the hits are as they have to be, and the word is.
fn ends_with_word(learner: &Learner, mut pass: LearnPass) -> bool
    requires own { IsLearnPassOf learner.now pass × HasUnique learner.now 0 1 }
{
    let as_told = builds_once(learner, &mut pass) && counts_hits(learner, &mut pass);
    let info = learner.recommend(&mut pass, 0);
    as_told && is_info_of(1, &info) && pack(&info) == 0x0000_012f_0000_63a7
}

#[test]
fn one_key_of_three_ends_with_its_word(rt: HostRuntime) {
    let (learner, pass) = open_one(&rt, &Info::opening(), 1);
    ensure(
        &rt,
        ends_with_word(&learner, pass),
        "the build and the word",
    );
}

/// Whether the learner says just this of its index.
fn says(learner: &Learner, pass: &mut LearnPass, info: &Info) -> bool
    requires own { IsLearnPassOf learner.now pass.old × HasUnique learner.now 0 1 }
    ensures { IsLearnPassOf learner.now pass.new }
{
    learner.recommend(pass, 0) == *info
}

/// Whether a hit and a miss are told that the word is worn, a descent leaves its block, and the learner
/// says what it began with.
fn is_worn(learner: &Learner, mut pass: LearnPass, first: &Info) -> bool
    requires own { IsLearnPassOf learner.now pass × HasUnique learner.now 0 1 }
{
    let hit = learner.after_hit(&mut pass, 0);
    let miss = learner.after_miss(&mut pass, 0);
    let mut block = BlockFigures::opening();
    let builds = descend(learner, &mut pass, &mut block, ONE);
    let kept = !builds && block == BlockFigures::opening() && says(learner, &mut pass, first);
    hit == Learn::Worn && miss == Learn::Worn && kept
}

#[test]
fn a_worn_word_stays(rt: HostRuntime) {
    let first = Info {
        events: u32::MAX,
        ..Info::opening()
    };
    let (learner, pass) = open_one(&rt, &first, 1);
    ensure(&rt, is_worn(&learner, pass, &first), "a worn word");
}

/// Whether a hit that a miss of another pass, which has the upper numbers, overtakes is told so, and isn't
/// counted.
fn is_overtaken(learner: &Learner, mut pass: LearnPass, mut other: LearnPass) -> bool
    requires own { IsLearnPassOf learner.now pass × HasUnique learner.now 0 1 }
    requires others { IsLearnPassOf learner.now other }
{
    let (low, end) = other.numbers();
    let read = Info::opening();
    let found = Info { events: 1, ..read };
    let Some((word, before)) = learner.read(&mut pass, 0, &Event::Hit) else {
        return false
    };
    let counted = learner.after_miss(&mut other, 0);
    let raced = learner.exchange(&mut pass, 0, &Event::Hit, word, &before);
    let told = matches!(&counted, Learn::Learnt { .. }) && raced == Learn::Raced { read, found };
    low == 3 && end == 7 && word == 0x4002 && told && says(learner, &mut pass, &found)
}

#[test]
fn an_event_that_another_overtakes_is_not_counted(rt: HostRuntime) {
    let (learner, mut pass) = open_one(&rt, &Info::opening(), 7);
    let other = cut(&rt, &learner, &mut pass, 7);
    ensure(&rt, is_overtaken(&learner, pass, other), "a race");
}

/// Makes 1,000 events, and says how many were counted.
fn events(learner: &Learner, mut pass: LearnPass) -> (LearnPass, u32)
    requires own { IsLearnPassOf learner.now pass × HasUnique learner.now 0 1 }
    ensures { IsLearnPassOf learner.now result.0 }
{
    let mut counted: u32 = 0;
    for i in 0..1000 {
        if counts(learner, &mut pass, i % 3 == 0) {
            counted = counted.saturating_add(1);
        }
    }
    (pass, counted)
}

/// The event count that the word has once two passes are one again.
fn count_of<R: Abort>(rt: &R, learner: &Learner, mut one: LearnPass, two: LearnPass) -> u32
    requires own { IsLearnPassOf learner.now one × HasUnique learner.now 0 1 }
    requires others { IsLearnPassOf learner.now two }
{
    let (_, middle) = one.numbers();
    let (next, _) = two.numbers();
    ensure(rt, middle == next, "the next numbers");
    learner.join(&mut one, two);
    learner.recommend(&mut one, 0).events
}

#[test]
fn two_threads_count_what_the_word_counts(rt: HostRuntime) {
    let (learner, mut pass) = open_one(&rt, &Info::opening(), 2);
    let other = cut(&rt, &learner, &mut pass, 2);
    let ((one, here), (two, there)) = join(
        &rt,
        || -> (LearnPass, u32)
            requires { IsLearnPassOf learner pass × HasUnique learner 0 1 }
            ensures { IsLearnPassOf learner result.0 }
        { events(&learner, pass) },
        || -> (LearnPass, u32)
            requires { IsLearnPassOf learner other × HasUnique learner 0 1 }
            ensures { IsLearnPassOf learner result.0 }
        { events(&learner, other) },
    );
    let counted = count_of(&rt, &learner, one, two);
    ensure(&rt, counted == here.saturating_add(there), "all events");
}
