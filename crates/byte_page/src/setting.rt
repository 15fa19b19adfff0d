//! Rows that get another value.
ghost use Rattle.std.specs.Prelude.{◌≡◌, ℕ, List, length, Some, None, Err, IsSome, IfSome, IfOk, IfErr, OnErr};
ghost use Rattle.index_page.specs.Rows.{Row, Bytes, find_row};
ghost use Rattle.index_page.specs.Changes.{Sets};
ghost use Rattle.index_page.specs.Refusals.{is_as_long};
ghost use Rattle.byte_page.specs.Setting.{gap_refusal_to_set, SetsAgain};

use crate::inserting::refusal_by;
use crate::page::BytePage;
use index_page::{Body, PAGE_ROOM, PageError, Place, charge};
use key_tuple::Value;
use page_rows::set_value;

impl BytePage {
    /// Gives the row at a place another value, and tells where it stands then. A value that is as
    /// long as the one before is written in its place. For another one the row goes and comes
    /// again. After a refusal the page is as before.
    pub fn set(&mut self, place: Place, value: &Value) -> Result<Place, PageError>
        requires there { IsSome (find_row place self.old.page.rows) }
        requires level { self.old.page.head.level ≡ 0 }
        ensures ok { IfOk result
            (λ other. SetsAgain self.old.page self.new.page place other value.now) }
        ensures refused { IfSome (gap_refusal_to_set self.old place value.now)
            (λ e. result ≡ Err e) }
        ensures cause { IfErr result (λ e. gap_refusal_to_set self.old place value.now ≡ Some e) }
        ensures err { OnErr result (self.new ≡ self.old) }
    {
        if let Some(refusal) = self.refusal_to_set(place, value) {
            return Err(refusal);
        }
        Ok(self.put_again(place, value))
    }

    /// Why the row at a place gets no other value, if it doesn't.
    pub fn refusal_to_set(&self, place: Place, value: &Value) -> Option<PageError>
        requires there { IsSome (find_row place self.now.page.rows) }
        requires level { self.now.page.head.level ≡ 0 }
        ensures { result ≡ gap_refusal_to_set self.now place value.now }
    {
        self.is_in_order();
        if self.is_as_long(place, value) {
            return None;
        }
        let need = charge(&self.row(place), Body::Value(value));
        let others = self.load() - self.charge_at(place);
        refusal_by(need, PAGE_ROOM - others, self.gaps_without(place))
    }

    /// The value is as long as the one of the row at a place.
    fn is_as_long(&self, place: Place, value: &Value) -> bool
        requires there { IsSome (find_row place self.now.page.rows) }
        requires level { self.now.page.head.level ≡ 0 }
        ensures { (row : Row) → find_row place self.now.page.rows ≡ Some row
            → result ≡ is_as_long value.now row.body }
    {
        self.is_in_order();
        value.as_bytes().len() == self.row(place).tail().len()
    }

    /// Gives the row a value that isn't refused.
    fn put_again(&mut self, place: Place, value: &Value) -> Place
        requires there { IsSome (find_row place self.old.page.rows) }
        requires level { self.old.page.head.level ≡ 0 }
        requires room { gap_refusal_to_set self.old place value.now ≡ None }
        ensures { SetsAgain self.old.page self.new.page place result value.now }
    {
        if self.is_as_long(place, value) {
            self.set_in_place(place, value);
            return place;
        }
        self.replace(place, value)
    }

    /// Gives the row at a place another value, which is as long as the one before. No row moves.
    pub fn set_in_place(&mut self, place: Place, value: &Value)
        requires there { IsSome (find_row place self.old.page.rows) }
        requires level { self.old.page.head.level ≡ 0 }
        requires long { (row : Row) (before : List ℕ) → find_row place self.old.page.rows ≡ Some row
            → row.body ≡ Bytes before → length value.now ≡ length before }
        ensures rows { Sets self.old.page self.new.page place place value.now }
        ensures gaps { self.new.gaps ≡ self.old.gaps }
        ensures slots { self.new.slots ≡ self.old.slots }
    {
        set_value(&mut self.bytes, self.fields, place, value.as_bytes());
    }
}
