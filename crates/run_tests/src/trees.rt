//! Lanes whose rows fill trees, judged by the naive reading. Once a put is told `ok`, a legal
//! report has its row found by each later get of the lane; so the changes are counted besides.
use crate::rows::{Look, Numbers, add_asks, add_puts, comes_and_goes, puts_and_gets};
use crate::setup::{SCHEMA, legal_report};
use std::process::Abort;
use std::sync::Wait;
use std::thread::Threads;

/// The number behind these words at the end of a line of a report, or 0 where it has no such line.
pub(crate) fn counted(report: &str, words: &str) -> u64 {
    let (_, behind) = report.split_once(words).unwrap_or(("", ""));
    let (count, _) = behind.split_once('\n').unwrap_or(("", ""));
    count.parse::<u64>().unwrap_or(0)
}

/// How many changes these lanes make, which are done and have a legal report.
pub(crate) fn changes_of<R: AllocGlobal + Abort + Threads + Wait + Sync>(
    rt: &R,
    lanes: &[&str],
) -> u64 {
    counted(legal_report(rt, SCHEMA, lanes).as_str(), "changes t ")
}

/// The first number, the factor, the step, and how many there are, each of them once; how many
/// bytes stand before a number in its key, and how many bytes a value has.
type Rows = (u64, u64, u64, u64, usize, usize);

/// Rows that fill several leaves: ascending, descending and out of order; with keys that begin
/// alike; and with the longest keys, over which there are three levels. And 200,000 rows out of
/// order.
static ROWS: [Rows; 6] = [
    (0, 1, 1, 40, 0, 1000),
    (39, 1, 39, 40, 0, 1000),
    (0, 21, 7, 500, 0, 200),
    (0, 21, 7, 500, 300, 100),
    (0, 21, 7, 500, 760, 100),
    (0, 12_421, 7, 200_000, 0, 1),
];

fn rows_of(rows: Rows) -> (Numbers, Look) {
    let (first, factor, step, count, before, value) = rows;
    let numbers = Numbers {
        first,
        factor,
        step,
        limit: count,
        count,
    };
    (numbers, Look { before, value })
}

/// Whether each of these rows is put, and found in a legal report.
fn are_found<R: AllocGlobal + Abort + Threads + Wait + Sync>(rt: &R, rows: Rows) -> bool {
    let (numbers, look) = rows_of(rows);
    changes_of(rt, &[puts_and_gets(rt, numbers, look).as_str()]) == numbers.count
}

#[test]
fn each_row_is_put_and_found(rt: HostRuntime) {
    for rows in ROWS.iter() {
        assert!(rt; are_found(&rt, *rows));
    }
}

#[test]
fn rows_come_again(rt: HostRuntime) {
    let (numbers, look) = rows_of((0, 21, 7, 500, 0, 200));
    let changes = changes_of(&rt, &[comes_and_goes(&rt, numbers, look).as_str()]);
    assert!(rt; changes == 1500);
}

/// The lane of every second number from this one on, below 2,000, with values of 200 bytes.
fn every_second<R: AllocGlobal + Abort>(rt: &R, first: u64) -> String {
    let numbers = Numbers {
        first,
        factor: 1,
        step: 2,
        limit: 2000,
        count: 1000,
    };
    let look = Look {
        before: 0,
        value: 200,
    };
    puts_and_gets(rt, numbers, look)
}

#[test]
fn two_lanes_put_rows_in_the_same_leaves(rt: HostRuntime) {
    let changes = changes_of(
        &rt,
        &[every_second(&rt, 0).as_str(), every_second(&rt, 1).as_str()],
    );
    assert!(rt; changes == 2000);
}

/// 12,500 ascending puts with the longest values, so that the pages run out, and gets of the first
/// 100 rows.
fn too_many<R: AllocGlobal + Abort>(rt: &R) -> String {
    let (numbers, look) = rows_of((0, 1, 1, 12_500, 0, 2048));
    let first = Numbers {
        count: 100,
        ..numbers
    };
    let mut lane = String::new(rt.alloc());
    add_puts(rt, &mut lane, numbers, look);
    add_asks(rt, &mut lane, "get t", first, look);
    lane
}

/// Such a row takes 2,064 bytes of the 16,252 of a page, so seven fill a leaf, and three stay on
/// the left of each split. Over the leaves stand a root and nine inner pages, which take all 4,096
/// pages with 4,086 leaves, the last of them full.
#[test]
fn pages_run_out(rt: HostRuntime) {
    let changes = changes_of(&rt, &[too_many(&rt).as_str()]);
    assert!(rt; changes == 4085 * 3 + 7);
}
