//! Rows that come.
ghost use Rattle.std.specs.Prelude.{◌≡◌, ◌≢◌, ◌+◌, ◌≤◌, ◌<◌, ℕ, List, length, true, Some, Err, IfOk, IfErr, OnErr, IfSome};
ghost use Rattle.key_tuple.specs.declared.mode.Mode.TheVariants as modes;
ghost use Rattle.key_tuple.specs.KeyPlace.{not_below};
ghost use Rattle.key_tuple.specs.Limits.{IsWithinLimits};
ghost use Rattle.compact_record.specs.Kind.{status_bits};
ghost use Rattle.compact_record.specs.Reading.{child_of};
ghost use Rattle.compact_record.specs.Record.{record_size_of};
ghost use Rattle.index_page.specs.declared.TheConstants.{PAGE_ROOM, MAX_CHARGE};
ghost use Rattle.index_page.specs.Rows.{Child, placed_row, body_by, LacksKey};
ghost use Rattle.index_page.specs.Page.{FitsLevel, HasShortValue};
ghost use Rattle.index_page.specs.Changes.{Inserts};
ghost use Rattle.index_page.specs.Search.{Finds};
ghost use Rattle.index_page.specs.Loads.{charge_of, load_of};
ghost use Rattle.index_page.specs.Refusals.{free_of, room_refusal, takes};
ghost use Rattle.page_rows.specs.Reading.{body_of_kind};
ghost use Rattle.page_search.specs.Cuts.{CutsRows};
ghost use Rattle.byte_page.specs.Form.{gap_refusal};
ghost use Rattle.byte_page.specs.Searching.{spot_with};

use crate::page::BytePage;
use crate::search::ByteSpot;
use crate::walks::INFIMUM;
use compact_record::RecordKind;
use index_page::{Body, Gaps, PageError, Place, charge};
use key_tuple::Fields;
use page_rows::page_rest;

/// The bytes of a pointer beside its key's fields and their lengths, and one of the directory.
const POINTER_CHARGE: u16 = 10;

impl BytePage {
    /// Puts a new row in and tells its place. Whether the key is there tells a search for it. After
    /// a refusal the page is as before.
    pub fn insert<A: Fields>(&mut self, key: &A, body: Body<'_>) -> Result<Place, PageError>
        requires fields { length (A.fields_of key.now) ≡ self.old.page.head.fields }
        requires limits { IsWithinLimits (A.fields_of key.now) }
        requires absent { LacksKey (A.fields_of key.now) self.old.page.rows }
        requires body { FitsLevel self.old.page.head.level (body_by body) }
        ensures ok { IfOk result (λ place. Inserts self.old.page self.new.page
            (placed_row place (A.fields_of key.now) (body_by body.entry))) }
        ensures refused { IfSome
            (gap_refusal self.old (A.fields_of key.now) (body_by body.entry))
            (λ e. result ≡ Err e) }
        ensures cause { IfErr result (λ e.
            gap_refusal self.old (A.fields_of key.now) (body_by body.entry) ≡ Some e) }
        ensures err { OnErr result (self.new ≡ self.old) }
    {
        let before = self.place_below(key);
        self.insert_behind(before, key, body)
    }

    /// Puts a new row in at the spot that a search for its key with `Ge` told, and looks nothing up
    /// again. That the key is not there tell the spot's figures.
    pub fn insert_at<A: Fields>(
        &mut self,
        spot: &ByteSpot,
        key: &A,
        body: Body<'_>,
    ) -> Result<Place, PageError>
        requires spot { (cut : ℕ)
            × Finds modes.Ge (A.fields_of key.now) self.old.page.rows (spot_with spot.now cut) }
        requires absent { spot.now.up.fields ≢ length (A.fields_of key.now) }
        requires fields { length (A.fields_of key.now) ≡ self.old.page.head.fields }
        requires limits { IsWithinLimits (A.fields_of key.now) }
        requires body { FitsLevel self.old.page.head.level (body_by body) }
        ensures ok { IfOk result (λ place. Inserts self.old.page self.new.page
            (placed_row place (A.fields_of key.now) (body_by body.entry))) }
        ensures refused { IfSome
            (gap_refusal self.old (A.fields_of key.now) (body_by body.entry))
            (λ e. result ≡ Err e) }
        ensures cause { IfErr result (λ e.
            gap_refusal self.old (A.fields_of key.now) (body_by body.entry) ≡ Some e) }
        ensures err { OnErr result (self.new ≡ self.old) }
    {
        self.is_in_order();
        self.insert_behind(spot.before.unwrap_or(INFIMUM), key, body)
    }

    /// Puts a new row in behind the last one below its key, whose place is `before`.
    fn insert_behind<A: Fields>(
        &mut self,
        before: Place,
        key: &A,
        body: Body<'_>,
    ) -> Result<Place, PageError>
        requires before { CutsRows self.old.page.rows (not_below (A.fields_of key.now)) before }
        requires fields { length (A.fields_of key.now) ≡ self.old.page.head.fields }
        requires limits { IsWithinLimits (A.fields_of key.now) }
        requires absent { LacksKey (A.fields_of key.now) self.old.page.rows }
        requires body { FitsLevel self.old.page.head.level (body_by body) }
        ensures ok { IfOk result (λ place. Inserts self.old.page self.new.page
            (placed_row place (A.fields_of key.now) (body_by body.entry))) }
        ensures refused { IfSome
            (gap_refusal self.old (A.fields_of key.now) (body_by body.entry))
            (λ e. result ≡ Err e) }
        ensures cause { IfErr result (λ e.
            gap_refusal self.old (A.fields_of key.now) (body_by body.entry) ≡ Some e) }
        ensures err { OnErr result (self.new ≡ self.old) }
    {
        let need = charge(key, body);
        if let Some(refusal) = self.refusal(need) {
            return Err(refusal);
        }
        match body {
            Body::Value(value) => {
                let size = need - 1;
                Ok(self.enter(before, RecordKind::Row, key, value.as_bytes(), size))
            }
            Body::Child(number) => {
                let kind = pointer_kind(need, key.count());
                Ok(self.enter(before, kind, key, &child_bytes(number), need - 1))
            }
        }
    }
}

impl BytePage {
    /// Why a row that needs so much isn't put in, if it isn't. Where the bytes behind all records
    /// take its record, the free list isn't looked at.
    fn refusal(&self, need: u16) -> Option<PageError>
        requires some { 0 < need }
        requires most { need ≤ MAX_CHARGE }
        ensures { result ≡ room_refusal need (free_of self.now.page) self.now.gaps }
    {
        let free = self.free();
        if need <= free && need < self.rest() {
            return None;
        }
        refusal_by(need, free, self.gaps())
    }

    /// How many bytes are left behind all records.
    fn rest(&self) -> u16
        ensures { result ≡ self.now.gaps.rest }
    {
        page_rest(&self.bytes)
    }
}

/// Why a row that needs so much isn't put in where so much is free and there are these gaps, if it
/// isn't.
pub(crate) fn refusal_by(need: u16, free: u16, gaps: Gaps) -> Option<PageError>
    requires some { 0 < need }
    requires most { need ≤ MAX_CHARGE }
    ensures { result ≡ room_refusal need free gaps }
{
    if need > free {
        return Some(PageError::PageFull { need, free });
    }
    if takes_record(gaps, need - 1) {
        return None;
    }
    Some(PageError::Scattered {
        need,
        run: gaps.rest,
    })
}

/// Some gap takes a record of this size.
fn takes_record(gaps: Gaps, size: u16) -> bool
    requires { size < 65000 }
    ensures { result ≡ takes gaps size }
{
    size <= gaps.head && 2 <= gaps.rest || size + 2 <= gaps.rest
}

/// The kind of a pointer that needs so much: the leftmost one of its level has empty fields.
fn pointer_kind(need: u16, fields: u8) -> RecordKind
    ensures status { status_bits result ≡ 1 }
    ensures child { (tail : List ℕ) → body_of_kind result tail ≡ Child (child_of tail) }
{
    if need == POINTER_CHARGE + u16::from(fields) {
        RecordKind::LeftmostPointer
    } else {
        RecordKind::Pointer
    }
}

/// A child's number, the most significant byte first.
fn child_bytes(number: u32) -> [u8; 4]
    ensures len { length result ≡ 4 }
    ensures child { child_of result ≡ number }
{
    [
        (number / 16_777_216) as u8,
        (number / 65_536 % 256) as u8,
        (number / 256 % 256) as u8,
        (number % 256) as u8,
    ]
}
