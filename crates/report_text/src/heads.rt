//! The lines that part a report.
ghost use Rattle.std.specs.Prelude.{◌≡◌, [], ◌∷◌, ◌++◌, OnOk, OnErr, codes, decimal};
ghost use Rattle.map_history.specs.Text.{line_of};

use crate::line::put_line;
use crate::word::Word;
use key_tuple::{Blank, NoMemory};

/// Appends the first line of a report.
pub fn report_head(out: &mut Vec<u8>) -> Result<(), NoMemory>
    ensures ok { OnOk result (out.new.items ≡ out.old.items
        ++ line_of (codes "ahi" ∷ codes "run" ∷ [])) }
    ensures err { OnErr result (out.new.items ≡ out.old.items) }
{
    put_line::<Blank>(out, &[Word::Text("ahi"), Word::Text("run")])
}

/// Appends the line before the answers of a lane.
pub fn lane_head(out: &mut Vec<u8>, lane: u64) -> Result<(), NoMemory>
    ensures ok { OnOk result (out.new.items ≡ out.old.items
        ++ line_of (codes "lane" ∷ decimal lane ∷ [])) }
    ensures err { OnErr result (out.new.items ≡ out.old.items) }
{
    put_line::<Blank>(out, &[Word::Text("lane"), Word::Number(lane)])
}

/// Appends the line before the changes of an index: its name, and how many changes it has.
pub fn changes_head(out: &mut Vec<u8>, name: &str, count: u64) -> Result<(), NoMemory>
    ensures ok { OnOk result (out.new.items ≡ out.old.items
        ++ line_of (codes "changes" ∷ name.now ∷ decimal count ∷ [])) }
    ensures err { OnErr result (out.new.items ≡ out.old.items) }
{
    put_line::<Blank>(
        out,
        &[Word::Text("changes"), Word::Text(name), Word::Number(count)],
    )
}

/// Appends the last line of a report.
pub fn report_end(out: &mut Vec<u8>) -> Result<(), NoMemory>
    ensures ok { OnOk result (out.new.items ≡ out.old.items
        ++ line_of (codes "end" ∷ [])) }
    ensures err { OnErr result (out.new.items ≡ out.old.items) }
{
    put_line::<Blank>(out, &[Word::Text("end")])
}
