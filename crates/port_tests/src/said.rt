//! The words of wrong uses and the ends of runs, and what is said of each.

pub(crate) const RUN: &[&str] = &["run", "s", "l1", "l2"];

/// The status of a run, its words, the line that was put first, the bytes of the file that this names
/// where they are known, and what is said.
pub(crate) type Said = (
    u8,
    &'static [&'static str],
    &'static str,
    Option<&'static [u8]>,
    &'static str,
);

/// Words that aren't accepted.
pub(crate) static WORDS: [Said; 6] = [
    (
        2,
        &[],
        "usage",
        None,
        "no command is given, or a word isn't UTF-8; ahi run SCHEMA LANE.. is one",
    ),
    (
        2,
        &["page", "f"],
        "usage",
        None,
        "no command is called page; run is one",
    ),
    (
        2,
        &["run"],
        "usage",
        None,
        "run wants a schema and 1 to 64 lanes",
    ),
    (
        2,
        &["run", "s"],
        "usage",
        None,
        "run wants a schema and 1 to 64 lanes; 0 lanes are named",
    ),
    (
        2,
        &["run", "s", "-l"],
        "usage",
        None,
        "-l begins with - and names no file",
    ),
    (
        2,
        &["run", "", "l"],
        "usage",
        None,
        "an empty word names no file",
    ),
];

/// Runs that end so whatever their files have.
pub(crate) static ENDS: [Said; 15] = [
    (0, RUN, "ahi run\n", None, ""),
    (
        3,
        RUN,
        "shelf 0\n",
        None,
        "s: it isn't there, or can't be read",
    ),
    (
        3,
        RUN,
        "shelf 2\n",
        None,
        "l2: it isn't there, or can't be read",
    ),
    (
        5,
        RUN,
        "too-large 1\n",
        None,
        "l1: with it the files have more than 67,108,864 bytes together",
    ),
    (
        4,
        RUN,
        "ahi run\n",
        None,
        "the standard output didn't take all that was put",
    ),
    (6, RUN, "", None, "there was no memory"),
    (
        5,
        RUN,
        "sizes pages\n",
        None,
        "pages is to be as many as there are indexes or more, and at most 65,536",
    ),
    (
        5,
        RUN,
        "sizes parts\n",
        None,
        "parts is to be 1 to 512, and parts times blocks at most 16,777,216",
    ),
    (
        5,
        RUN,
        "sizes cells\n",
        None,
        "cells is to be 1 or more, and parts times cells at most 4,194,304",
    ),
    (
        5,
        RUN,
        "sizes nodes\n",
        None,
        "parts times nodes is to be at most 4,194,304",
    ),
    (
        5,
        RUN,
        "sizes fold_bits\n",
        None,
        "fold_bits is to be 1 to 64",
    ),
    (
        5,
        RUN,
        "sizes max_changes\n",
        None,
        "max_changes is to be 1 to 8,388,608",
    ),
    (
        1,
        RUN,
        "script 1 7 1\n",
        None,
        "l1, line 7: it isn't in the grammar",
    ),
    (
        1,
        RUN,
        "script 1 7 2\n",
        None,
        "l1, line 7: no index of the schema has its name",
    ),
    (
        1,
        RUN,
        "script 1 7 3\n",
        None,
        "l1, line 7: its key or its value has too many bytes",
    ),
];
