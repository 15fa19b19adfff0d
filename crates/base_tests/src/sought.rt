//! A report of seeks, written by hand: it is legal, and with a lie it isn't.
use crate::edited::{Edit, Written};
use report_judge::Lie;

static SEEKS: Written = Written {
    schema: "index t 3\n",
    lane: "put t a,x,1 p\nput t a,y,2 s\nput t a,x,2 q\nput t a,y,1 r\nput t ~,+,1 e\n\
        seek t ge a,y\nseek t ge a\nseek t g a,x\nseek t g a,x,1\nseek t g a\nseek t le a,x\n\
        seek t le b\nseek t l a,y\nseek t l a\nseek t l ~,+,1\n",
    report: "ahi run\nlane 1\n1 ok @1 cold no\n2 ok @2 cold no\n3 ok @3 cold no\n4 ok @4 cold no\n5 ok @5 cold no\n\
        6 found a,y,1 r @5 cold no\n7 found a,x,1 p @5 cold no\n8 found a,y,1 r @5 cold no\n\
        9 found a,x,2 q @5 cold no\n10 absent @5 cold no\n11 found a,x,2 q @5 cold no\n\
        12 found a,y,2 s @5 cold no\n13 found a,x,2 q @5 cold no\n14 found ~,+,1 e @5 cold no\n\
        15 absent @5 cold no\nchanges t 5\n1 1 1 put a,x,1 p\n2 1 2 put a,y,2 s\n3 1 3 put a,x,2 q\n\
        4 1 4 put a,y,1 r\n5 1 5 put ~,+,1 e\n",
    answers: 15,
};

/// That the answer to this line is wrong.
macro_rules! wrong {
    ($line:expr) => {
        Err(Lie::Wrong {
            lane: 1,
            line: $line,
        })
    };
}

/// The report as it is, and with a lie.
static EDITS: [Edit; 9] = [
    ("ahi run", "ahi run", Ok(())),
    ("6 found a,y,1 r", "6 found a,y,2 s", wrong!(6)),
    ("6 found a,y,1 r", "6 found a,y,1 s", wrong!(6)),
    ("7 found a,x,1 p", "7 absent", wrong!(7)),
    ("8 found a,y,1 r", "8 found a,x,2 q", wrong!(8)),
    ("10 absent", "10 found a,y,2 s", wrong!(10)),
    ("11 found a,x,2 q", "11 found a,x,1 p", wrong!(11)),
    ("13 found a,x,2 q", "13 found a,y,1 r", wrong!(13)),
    ("14 found ~,+,1 e", "14 found e", wrong!(14)),
];

#[test]
fn a_report_of_seeks_is_legal_and_with_a_lie_it_is_not(rt: HostRuntime) {
    assert!(rt; SEEKS.is_judged(&rt, &EDITS));
}
