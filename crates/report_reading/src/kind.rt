//! Kinds of lines, and how a line of a kind is read.
ghost use Rattle.std.specs.Prelude.{◌≡◌, ◌++◌, Bool, List, ℕ, Option, OnOk};
ghost use Rattle.line_forms.specs.Anew.{anew, words_of};
ghost use Rattle.line_forms.specs.LineForms.{read_line};
ghost use Rattle.report_reading.specs.Reads.{Reads, Tells, passing};
ghost use Rattle.script.specs.Pieces.{pieces_left};

use crate::misread::Misread;
use crate::text::ReportText;
use key_tuple::NoMemory;
use script::Pieces;
use std::alloc::Global;

/// A kind of line at its place: what its words tell, and how it is printed.
pub trait LineKind {
    /// What is read of such a line.
    type Read: Drop;

    /// The same as a report has it.
    ghost Seen: { Type 0 };

    /// How it is seen so.
    ghost view: { Self.Read → Seen };

    /// What the words of a line tell, however they are spelled.
    ghost told: { List (List ℕ) → Option Seen };

    /// What may be told at this place.
    ghost passes: { Self → Seen → Bool };

    /// The one line that tells it.
    ghost text: { Self → Seen → List ℕ };

    /// When words can be read.
    ghost can_tell: { Self → Type 0 };

    /// What the words of a line tell, if it may be told here.
    fn tell(&self, alloc: Global, words: Pieces<'_>) -> Result<Self::Read, Misread>
        requires { can_tell self.now }
        ensures { Tells view result (passing (passes self.now) (told (pieces_left words.entry))) };

    /// Appends the line that tells it.
    fn put(&self, out: &mut Vec<u8>, read: &Self::Read) -> Result<(), NoMemory>
        ensures { OnOk result (out.new.items ≡ out.old.items ++ text self.now (view read.now)) };
}

/// Reads a line: what its words tell is printed anew, and has to be the line.
pub fn read_kind<K: LineKind>(
    alloc: Global,
    kind: &K,
    text: &mut ReportText<'_>,
) -> Result<K::Read, Misread>
    requires { K.can_tell kind.now }
    ensures { Reads K.view result text.new (read_line (anew (λ line. K.told (words_of line))
        (K.passes kind.now) (K.text kind.now)) text.old) }
{
    let read = kind.tell(alloc, text.words())?;
    let mut printed = Vec::new(alloc);
    kind.put(&mut printed, &read)?;
    text.expect_line(&printed)?;
    Ok(read)
}
