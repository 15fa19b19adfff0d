//! A thousand searches where a fold has one bit: the hash errs again and again, and each answer is
//! right.
use crate::setup::{MEMORY, SCHEMA, legal_within};
use crate::trees::counted;
use report_judge::LIMITS;
use std::process::Abort;
use std::sync::Wait;
use std::thread::Threads;

/// So many searches in these words: the first by this number, and each next one by a number that is
/// a step further, where 1 comes behind 72.
struct Searches {
    words: &'static str,
    first: u64,
    step: u64,
    count: u64,
}

/// Gets and seeks of rows that are there, until the leaf is hashed by the first row of each run and
/// then by the last one; and then others, half of them by numbers between those of the rows.
static SEARCHES: [Searches; 6] = [
    Searches {
        words: "get t",
        first: 2,
        step: 14,
        count: 300,
    },
    Searches {
        words: "seek t ge",
        first: 2,
        step: 14,
        count: 150,
    },
    Searches {
        words: "seek t le",
        first: 2,
        step: 14,
        count: 300,
    },
    Searches {
        words: "get t",
        first: 1,
        step: 5,
        count: 90,
    },
    Searches {
        words: "seek t g",
        first: 1,
        step: 5,
        count: 80,
    },
    Searches {
        words: "seek t l",
        first: 1,
        step: 5,
        count: 80,
    },
];

/// Adds the put of each row: they have the even numbers from 2 to 72, in their keys and in their
/// values.
fn add_rows<R: Abort>(rt: &R, lane: &mut String) {
    for row in 1..37u64 {
        let digits = row.wrapping_mul(2).wrapping_add(100);
        write!(lane, "put t k{digits} v{digits}\n").expect(rt, MEMORY);
    }
}

fn add_searches<R: Abort>(rt: &R, lane: &mut String, searches: &Searches) {
    let words = searches.words;
    let mut number = searches.first;
    for _ in 0..searches.count {
        let digits = number.wrapping_add(100);
        write!(lane, "{words} k{digits}\n").expect(rt, MEMORY);
        number = number.wrapping_add(searches.step);
        if number > 72 {
            number = number.wrapping_sub(72);
        }
    }
}

/// All puts, and then all searches.
fn puts_and_searches<R: AllocGlobal + Abort>(rt: &R) -> String {
    let mut lane = String::new(rt.alloc());
    add_rows(rt, &mut lane);
    for searches in SEARCHES.iter() {
        add_searches(rt, &mut lane, searches);
    }
    lane
}

/// The legal report of the lane where a fold has one bit.
fn report_of<R: AllocGlobal + Abort + Threads + Wait + Sync>(rt: &R) -> String {
    let lane = puts_and_searches(rt);
    let sized = "fold_bits 1\nindex t 1\n";
    legal_within(rt, LIMITS, sized, SCHEMA, &[lane.as_str()])
}

/// Whether each row is put, some searches are hits, and some lead to another row.
fn is_searched(report: &str) -> bool {
    counted(report, "changes t ") == 36
        && !report.contains(" hit 0 ")
        && !report.contains(" unequal 0 ")
}

#[test]
fn a_thousand_searches_are_right_where_the_hash_errs(rt: HostRuntime) {
    let is_right = is_searched(report_of(&rt).as_str());
    assert!(rt; is_right);
}
