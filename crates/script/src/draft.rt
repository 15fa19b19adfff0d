//! A schema while its lines are read.
ghost use Rattle.std.specs.Prelude.{◌≡◌, OnOk, IfErr, Ok, true};
ghost use Rattle.script.specs.Schema.{schema_line, after_words, index_line, setting_line, takes_name, takes_setting, was_given, draft_with_index, with_setting, count_spelled};
ghost use Rattle.script.specs.Grammar.{is_name};
ghost use Rattle.script.specs.Pieces.{pieces_left};
ghost use Rattle.script.specs.Steps.{Leaves};
ghost use Rattle.script.specs.Views.{draft_text, draft_view};

use crate::entry::{Entry, find_entry};
use crate::error::{Flaw, Refusal};
use crate::names::{find_name, name_text};
use crate::numbers::find_number;
use crate::pieces::Pieces;
use crate::words::{has_name_form, is_silent, one_word, two_words};
use key_tuple::MAX_FIELDS;
use map_history::{MAX_INDEXES, Sizes};
use settings::{Setting, set_size};
use std::alloc::{AllocError, Global};

/// The sizes and the indexes so far, and which settings were given.
#[derive(Drop)]
pub struct Draft {
    pub sizes: Sizes,
    pub given: Vec<Setting>,
    pub names: Vec<String>,
    pub fields: Vec<u8>,
}

impl Draft {
    /// Takes a line of the schema.
    #[tactic(auto, unfolding(crate::specs::Schema::schema_line))]
    pub fn take_line(&mut self, alloc: Global, line: &[u8]) -> Result<(), Refusal>
        ensures { Leaves result (schema_line (draft_view self.old) line.now) (draft_view self.new) }
    {
        if is_silent(line) {
            return Ok(());
        }
        self.take_words(alloc, Pieces::new(line, b' '))
    }

    fn take_words(&mut self, alloc: Global, mut words: Pieces<'_>) -> Result<(), Refusal>
        ensures { Leaves result (after_words (draft_view self.old) (pieces_left words.entry))
            (draft_view self.new) }
    {
        match words.next().and_then(find_entry) {
            Some(Entry::Index) => self.take_index(alloc, words),
            Some(Entry::Set(setting)) => self.take_setting(setting, words),
            None => Err(Refusal::Flawed(Flaw::BadLine)),
        }
    }

    fn take_index(&mut self, alloc: Global, words: Pieces<'_>) -> Result<(), Refusal>
        ensures { Leaves result (index_line (draft_view self.old) (pieces_left words.entry))
            (draft_view self.new) }
    {
        let Some((name, count)) = two_words(words) else {
            return Err(Refusal::Flawed(Flaw::BadLine));
        };
        let Some(count) = find_count(count) else {
            return Err(Refusal::Flawed(Flaw::BadLine));
        };
        if !self.has_room_for(name) {
            return Err(Refusal::Flawed(Flaw::BadLine));
        }
        self.add(alloc, name, count)?;
        Ok(())
    }

    /// The name can be that of the next index.
    fn has_room_for(&self, name: &[u8]) -> bool
        ensures { result ≡ takes_name (draft_text self.now) name.now }
    {
        has_name_form(name)
            && self.names.len() < MAX_INDEXES
            && find_name(&self.names, name).is_none()
    }

    fn add(&mut self, alloc: Global, name: &[u8], count: u8) -> Result<(), AllocError>
        requires { is_name name.now ≡ true }
        ensures { OnOk result (draft_view self.new
            ≡ draft_with_index (draft_view self.old) name.now count) }
    {
        self.names.push(name_text(alloc, name)?)?;
        self.fields.push(count)?;
        Ok(())
    }

    fn take_setting(&mut self, setting: Setting, words: Pieces<'_>) -> Result<(), Refusal>
        ensures { Leaves result (setting_line setting (draft_view self.old)
            (pieces_left words.entry)) (draft_view self.new) }
    {
        match one_word(words).and_then(find_number) {
            Some(number) if self.has_room_for_setting(setting) => Ok(self.set(setting, number)?),
            _ => Err(Refusal::Flawed(Flaw::BadLine)),
        }
    }

    /// No index stands before the setting, and it wasn't given yet.
    fn has_room_for_setting(&self, setting: Setting) -> bool
        ensures { result ≡ takes_setting (draft_view self.now) setting }
    {
        self.names.is_empty() && !is_given(&self.given, setting)
    }

    fn set(&mut self, setting: Setting, number: u32) -> Result<(), AllocError>
        ensures { OnOk result (draft_view self.new
            ≡ with_setting (draft_view self.old) setting number) }
    {
        self.given.push(setting)?;
        set_size(&mut self.sizes, setting, number);
        Ok(())
    }
}

/// The setting is one of those that were given.
fn is_given(given: &[Setting], setting: Setting) -> bool
    ensures { result ≡ was_given given.now setting }
{
    given.iter().any(|known| known.place() == setting.place())
}

/// A number of fields, from 1 to 4.
fn find_count(word: &[u8]) -> Option<u8>
    ensures { result ≡ count_spelled word.now }
{
    let number = find_number(word)?;
    if number < 1 || u32::from(MAX_FIELDS) < number {
        return None;
    }
    Some(number as u8)
}
