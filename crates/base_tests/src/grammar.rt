//! The edges of the grammar of schemas and lanes. Texts have several files, apart by `|`.
use crate::files::{BAD, READ, UNKNOWN, error_of};
use crate::schema_sizes::{BAD_SETTINGS, GOOD_SETTINGS, LATE_SETTINGS};
use script::{Flaw, ScriptError};
use std::process::Abort;

const BAD_LANES: &str = "\
    get t a\r\n|get t %4\n|get t %gg\n|get  t a\n|get t  a\n|get t a \n| get t a\n|\
    scan t ~~ ~~ 0\n|scan t ~~ ~~ 007\n|get t \0\n|get t a~\n|put t a b,c\n|put t a\n|\
    put t a b c\n|get two a,b,c\n|get two ,\n|get T a\n|get u, a\n|set t a\n|set t a b c\n|\
    set t a b,c\n|set t a~ b\n|set two a b\n|set\n|SET t a b\n|seek t a\n|seek t ge\n|\
    seek t ge \n|seek t ge a b\n|seek t a ge\n|seek t GE a\n|seek t gt a\n|seek t gea\n|\
    seek t ge a,b\n|seek two l a,b,c\n|seek two le a,\n|GET t a\n|get\n|get two a\n";

const GOOD_LANES: &str = "\
    get t a|get t a\n\n|put t %4A %4a\n|put t ~ ~\n|get two a,~\n|set t a b|\
    set two ~,%2C %00\n|seek t ge a|seek t g ~\n|seek two le a\n|seek two l a,b\n|\
    seek two ge %2c,~\n";

const UNKNOWN_INDEXES: &str = "\
    get u\n|put two_ , x x\n|get u a\nget t \n|set u\n|seek u gt\n";

const BAD_SCHEMAS: &str = "\
    |index t 0\n|index t 5\n|index t 01\n|index t\n|index t 1 2\n|index 1t 1\n|\
    index a_0123456789_0123456789_012345678 1\n|block 8\nindex t 1\n|index t 1\r\n|\
    index T 1\n";

const GOOD_SCHEMAS: &str = "\
    index t 1|index t 4\n|index a_0123456789_0123456789_01234567 1\n";

/// Whether these files are lanes, else they are schemas; the files, and how each ends: a refusal has
/// the line that it is of. A schema without an index is refused behind its last line, and a name
/// stands once.
type Files = (bool, &'static str, Option<ScriptError>);

/// That this line has this flaw.
macro_rules! flawed {
    ($flaw:expr, $line:expr) => {
        Some(ScriptError::Flawed {
            line: $line,
            flaw: $flaw,
        })
    };
}

static FILES: [Files; 13] = [
    (true, BAD_LANES, BAD),
    (true, GOOD_LANES, READ),
    (true, UNKNOWN_INDEXES, UNKNOWN),
    (
        true,
        "\n# get u a\n\nget u a",
        flawed!(Flaw::UnknownIndex, 4),
    ),
    (true, "get t a\nget two a\n", flawed!(Flaw::BadLine, 2)),
    (false, BAD_SCHEMAS, BAD),
    (false, GOOD_SCHEMAS, READ),
    (false, "# nothing\n\n", flawed!(Flaw::BadLine, 3)),
    (false, "# nothing", flawed!(Flaw::BadLine, 2)),
    (false, "index t 1\nindex t 2\n", flawed!(Flaw::BadLine, 2)),
    (false, GOOD_SETTINGS, READ),
    (false, BAD_SETTINGS, BAD),
    (false, LATE_SETTINGS, flawed!(Flaw::BadLine, 2)),
];

fn each_ends<R: AllocGlobal + Abort>(rt: &R, row: &Files) -> bool {
    let (are_lanes, files, end) = row;
    for file in files.split('|') {
        if error_of(rt, *are_lanes, file.as_bytes()) != *end {
            return false;
        }
    }
    true
}

#[test]
fn files_are_read_as_their_grammar_has_them(rt: HostRuntime) {
    for row in FILES.iter() {
        assert!(rt; each_ends(&rt, row));
    }
}
