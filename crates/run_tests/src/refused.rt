//! Refusals, with their statuses and lines.
use crate::setup::{Faults, LANE, SCHEMA, USAGE, is_end, run_failing};
use ahi_cli::Status;
use std::process::Abort;
use std::sync::Wait;
use std::thread::Threads;

const GET: &str = "get t a\n";

/// A run that is refused: its words, if they don't just name all lanes, the schema and the lanes that
/// are held, and the loads and the puts that are to fail; then its status, and what is written.
type Refusal = (
    &'static [&'static str],
    &'static str,
    &'static [&'static str],
    &'static [u64],
    &'static [u64],
    Status,
    &'static str,
);

static REFUSED: [Refusal; 28] = [
    (
        &[],
        SCHEMA,
        &[LANE],
        &[],
        &[1],
        Status::SinkFault,
        "ahi run\n",
    ),
    (&[], SCHEMA, &[LANE], &[], &[0], Status::SinkFault, ""),
    (
        &[],
        SCHEMA,
        &[LANE],
        &[0],
        &[],
        Status::ShelfFault,
        "shelf 0\n",
    ),
    (
        &[],
        SCHEMA,
        &[LANE],
        &[1],
        &[],
        Status::ShelfFault,
        "shelf 1\n",
    ),
    (&[], SCHEMA, &[LANE], &[1], &[0], Status::SinkFault, ""),
    (
        &[],
        SCHEMA,
        &["get t a\nget u a\n"],
        &[],
        &[],
        Status::Script,
        "script 1 2 2\n",
    ),
    (
        &[],
        SCHEMA,
        &["\n# a\nget t\n"],
        &[],
        &[],
        Status::Script,
        "script 1 3 1\n",
    ),
    // a later lane, by its number
    (
        &[],
        SCHEMA,
        &[GET, "get t\n"],
        &[],
        &[],
        Status::Script,
        "script 2 1 1\n",
    ),
    (
        &[],
        SCHEMA,
        &[GET, GET, "\n\nput u a x\n"],
        &[],
        &[],
        Status::Script,
        "script 3 3 2\n",
    ),
    (
        &[],
        SCHEMA,
        &["get u a\n", "get t\n"],
        &[],
        &[],
        Status::Script,
        "script 1 1 2\n",
    ),
    (
        &[],
        SCHEMA,
        &[GET, GET],
        &[2],
        &[],
        Status::ShelfFault,
        "shelf 2\n",
    ),
    (
        &[],
        SCHEMA,
        &[GET, "get t\n", GET],
        &[3],
        &[],
        Status::Script,
        "script 2 1 1\n",
    ),
    // words, which are judged first
    (
        &["run", "s", "none"],
        SCHEMA,
        &[LANE],
        &[],
        &[],
        Status::ShelfFault,
        "shelf 1\n",
    ),
    (
        &["run", "s", "l1", "l2"],
        SCHEMA,
        &[LANE],
        &[],
        &[],
        Status::ShelfFault,
        "shelf 2\n",
    ),
    (
        &["run", "s"],
        SCHEMA,
        &[LANE],
        &[],
        &[],
        Status::Usage,
        USAGE,
    ),
    (
        &["run", "s", "l1", "-l"],
        SCHEMA,
        &[LANE],
        &[],
        &[],
        Status::Usage,
        USAGE,
    ),
    (
        &["run", "s", ""],
        SCHEMA,
        &[LANE],
        &[],
        &[],
        Status::Usage,
        USAGE,
    ),
    (
        &["run", "-s", "l1"],
        SCHEMA,
        &[LANE],
        &[],
        &[],
        Status::Usage,
        USAGE,
    ),
    (
        &["Run", "s", "l1"],
        SCHEMA,
        &[LANE],
        &[],
        &[],
        Status::Usage,
        USAGE,
    ),
    // too few lanes, and too many
    (&[], SCHEMA, &[], &[], &[], Status::Usage, USAGE),
    (&[], SCHEMA, &[GET; 65], &[], &[], Status::Usage, USAGE),
    (
        &[],
        SCHEMA,
        &[GET; 64],
        &[],
        &[],
        Status::TooLarge,
        "sizes blocks\n",
    ),
    (
        &[],
        SCHEMA,
        &[GET; 32],
        &[],
        &[],
        Status::TooLarge,
        "sizes blocks\n",
    ),
    // sizes that can't be had
    (
        &[],
        "pages 0\nindex t 1\n",
        &[LANE],
        &[],
        &[],
        Status::TooLarge,
        "sizes pages\n",
    ),
    (
        &[],
        "pages 1\nindex t 1\nindex u 1\n",
        &[LANE],
        &[],
        &[],
        Status::TooLarge,
        "sizes pages\n",
    ),
    (
        &[],
        "pages 0\nblocks 15\nindex t 1\n",
        &[LANE],
        &[],
        &[],
        Status::TooLarge,
        "sizes blocks\n",
    ),
    (
        &[],
        "max_changes 0\nindex t 1\n",
        &[LANE],
        &[],
        &[],
        Status::TooLarge,
        "sizes max_changes\n",
    ),
    (
        &[],
        "fold_bits 65\nindex t 1\n",
        &[LANE],
        &[],
        &[],
        Status::TooLarge,
        "sizes fold_bits\n",
    ),
];

/// Whether a run is refused so.
fn is_refused<R: AllocGlobal + Abort + Threads + Wait + Sync>(rt: &R, refusal: &Refusal) -> bool {
    let (words, schema, lanes, load, put, status, text) = *refusal;
    is_end(
        &run_failing(rt, words, schema, lanes, Faults { load, put }),
        status,
        text,
    )
}

#[test]
fn each_refusal_is_told(rt: HostRuntime) {
    for refusal in REFUSED.iter() {
        assert!(rt; is_refused(&rt, refusal));
    }
}
