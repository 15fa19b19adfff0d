//! The printed lines of a lane in one buffer.
ghost use Rattle.std.specs.Prelude.{◌≡◌, ◌<◌, [], ◌∷◌, ◌++◌, IsSome, IfSome, IfOk, OnOk, OnErr, length, slice_index, slice_index_or};
ghost use Rattle.key_tuple.specs.Parts.{parts, RiseTo};
ghost use Rattle.map_history.specs.Operation.{operation_of};
ghost use Rattle.map_history.specs.Spelling.{answer_text};
ghost use Rattle.map_history.specs.Told.{answer_of};

use crate::answers::answer;
use key_tuple::NoMemory;
use map_history::{Op, RowBuf, Told};
use std::alloc::Global;
use std::marker::Model;

/// Texts one behind another, seen as the list of them.
pub struct Texts {
    bytes: Vec<u8>,
    ends: Vec<usize>,
}

// Written out, so that a crate above drops it by one call.
impl Drop for Texts {
    fn drop(self) {
        let Self { bytes: _, ends: _ } = self;
    }
}

impl Model for Texts {
    ghost use Rattle.std.specs.Prelude.{List, ℕ};
    ghost use Rattle.key_tuple.specs.Parts.{parts};

    ghost Value = { List (List ℕ) };

    ghost use Rattle.report_text.specs.Texts.{AreTexts};

    ghost view = { λ t. parts t.bytes.items 0 t.ends.items };

    ghost invariant = { AreTexts };
}

impl Texts {
    /// No text, with room for the ends of so many.
    pub fn reserve(alloc: Global, n: usize) -> Result<Texts, NoMemory>
        ensures { IfOk result (λ texts. texts ≡ []) }
    {
        Ok(Texts {
            bytes: Vec::new(alloc),
            ends: Vec::with_capacity(alloc, n)?,
        })
    }

    /// How many texts there are.
    pub fn count(&self) -> usize
        ensures { result ≡ length self.now }
    {
        self.ends.len()
    }

    /// The text with this number, from 0.
    pub fn text(&self, i: usize) -> &[u8]
        requires { i < length self.now }
        ensures { result.now ≡ slice_index_or self.now i [] }
    {
        part(&self.bytes, &self.ends, i)
    }

    /// Adds the line of an answer.
    pub fn add_answer(
        &mut self,
        line: u32,
        told: &Told,
        row: &RowBuf,
        op: &Op,
    ) -> Result<(), NoMemory>
        requires { IsSome (answer_of (operation_of op.now).ask told.now row.now) }
        ensures ok { OnOk result (IfSome (answer_of (operation_of op.now).ask told.now row.now)
            (λ a. self.new ≡ self.old ++ answer_text line a ∷ [])) }
        ensures err { OnErr result (self.new ≡ self.old) }
    {
        let start = self.bytes.len();
        answer(&mut self.bytes, line, told, row, row.value(), op)?;
        if self.ends.push(self.bytes.len()).is_err() {
            self.bytes.truncate(start);
            return Err(NoMemory);
        }
        Ok(())
    }
}

/// The part of the bytes with that number.
fn part<'a>(bytes: &'a [u8], ends: &[usize], i: usize) -> &'a [u8]
    requires at { i < length ends.now }
    requires rise { RiseTo 0 ends.now (length bytes.now) }
    ensures { result.now ≡ slice_index_or (parts bytes.now 0 ends.now) i [] }
{
    let start = start_of(ends, i);
    let end = ends[i];
    &bytes[start..end]
}

/// Where that part begins: at the end of the part before it.
fn start_of(ends: &[usize], i: usize) -> usize
    requires { i < length ends.now }
    ensures { result ≡ slice_index (0 ∷ ends.now) i }
{
    if i == 0 { 0 } else { ends[i - 1] }
}
