//! The line that says how many changes an index has.
ghost use Rattle.std.specs.Prelude.{◌≡◌, nat_lt, ◌^◌};
ghost use Rattle.report_forms.specs.Entries.{third_number};
ghost use Rattle.report_reading.specs.Reads.{Tells, passing};
ghost use Rattle.script.specs.Pieces.{pieces_left};

use crate::digits::find_digits;
use crate::kind::LineKind;
use crate::misread::Misread;
use key_tuple::NoMemory;
use report_text::changes_head;
use script::{Pieces, one_word};
use std::alloc::Global;

/// The line of an index of this name.
#[derive(Drop)]
pub struct CountLine<'a> {
    pub name: &'a str,
}

impl<'a> LineKind for CountLine<'a> {
    ghost use Rattle.std.specs.Prelude.{ℕ, nat_lt, ◌^◌};
    ghost use Rattle.report_forms.specs.Entries.{third_number, count_text};

    type Read = u64;

    ghost Seen = { ℕ };

    ghost view = { λ count. count };

    ghost told = { third_number };

    ghost passes = { λ _ count. nat_lt count (2 ^ 64) };

    ghost text = { λ kind. count_text kind.name.now };

    ghost can_tell = { λ _. Unit {0} };

    fn tell(&self, _alloc: Global, words: Pieces<'_>) -> Result<u64, Misread> {
        tell_count(words)
    }

    fn put(&self, out: &mut Vec<u8>, read: &u64) -> Result<(), NoMemory> {
        changes_head(out, self.name, *read)
    }
}

fn tell_count(mut words: Pieces<'_>) -> Result<u64, Misread>
    ensures { Tells (λ count. count) result (passing (λ count. nat_lt count (2 ^ 64))
        (third_number (pieces_left words.entry))) }
{
    if words.next().is_none() || words.next().is_none() {
        return Err(Misread::BadLine);
    }
    match one_word(words).and_then(find_digits) {
        Some(count) => Ok(count),
        None => Err(Misread::BadLine),
    }
}
