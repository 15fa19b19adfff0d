//! Fills a page of 16 KiB, looks each of its rows up and takes each out, so many rounds:
//! `page_bench PAGE ROWS VALUE ROUNDS`. It prints how many rows it found.
#![tactic(auto)]

mod in_bytes;
mod plain;
mod rounds;
mod setup;

use byte_page::BytePage;
use index_page::Page;
use rounds::{Tally, Times, work};
use setup::{HEAD, load};
use std::alloc::Global;
use std::env;
use std::process::ExitCode;
use std::time::Duration;

/// What the words of the command say.
#[derive(Clone, Copy)]
struct Plan {
    in_bytes: bool,
    rows: u32,
    value: u32,
    rounds: u32,
    timed: bool,
}

fn main(rt: HostRuntime) -> ExitCode {
    match read_plan(&rt) {
        Some(plan) => report(&rt, plan),
        None => ExitCode::from(2),
    }
}

/// The command's words: the page, how many rows, how long a value, how many rounds, and `times`.
fn read_plan(rt: &HostRuntime) -> Option<Plan> {
    let mut words = env::args(rt).ok()?;
    let in_bytes = words.nth(1)?.as_str() == "bytes";
    Some(Plan {
        in_bytes,
        rows: number(words.next())?,
        value: number(words.next())?,
        rounds: number(words.next())?,
        timed: words.next().is_some(),
    })
}

/// The number that a word tells, if there is one.
fn number(word: Option<String>) -> Option<u32> {
    match word {
        Some(word) => word.as_str().parse::<u32>().ok(),
        None => None,
    }
}

fn report(rt: &HostRuntime, plan: Plan) -> ExitCode {
    match run(rt, rt.alloc(), plan) {
        Some(tally) => {
            let _said = println!(rt; "{}", tally.found);
            if plan.timed {
                print_times(rt, plan.rows, tally.least);
            }
            ExitCode::SUCCESS
        }
        None => ExitCode::FAILURE,
    }
}

/// Fills the page and works on it, if there is memory.
fn run(rt: &HostRuntime, alloc: Global, plan: Plan) -> Option<Tally> {
    let load = load(alloc, plan.rows, plan.value)?;
    if plan.in_bytes {
        let mut page = BytePage::empty(alloc, HEAD).ok()?;
        work(rt, &mut page, &load, plan.rounds)
    } else {
        let mut page = Page::empty(alloc, HEAD).ok()?;
        work(rt, &mut page, &load, plan.rounds)
    }
}

/// Nanoseconds a row, of the least round.
fn print_times(rt: &HostRuntime, rows: u32, least: Times) {
    let puts = each(least.puts, rows);
    let searches = each(least.searches, rows);
    let removals = each(least.removals, rows);
    let _said = println!(rt; "{puts} {searches} {removals}");
}

fn each(time: Duration, rows: u32) -> u64 {
    match u64::from(time.subsec_nanos()).checked_div(u64::from(rows)) {
        Some(nanos) => nanos,
        None => 0,
    }
}
