//! Rows that come and go.
ghost use Rattle.std.specs.Prelude.{◌≡◌, ◌≢◌, ◌≤◌, ◌+◌, ◌⊎◌, ℕ, List, length, Some, None, Err};
ghost use Rattle.std.specs.Prelude.{IfOk, IfErr, OnErr, IfSome, IsSome, IsOk};
ghost use Rattle.key_tuple.specs.Limits.{IsWithinLimits};
ghost use Rattle.index_page.specs.declared.TheConstants.{PAGE_ROOM};
ghost use Rattle.index_page.specs.Rows.{Bytes, Row, placed_row, body_by, find_row, LacksKey};
ghost use Rattle.index_page.specs.Page.{FitsLevel};
ghost use Rattle.index_page.specs.Loads.{charge_of, load_of};
ghost use Rattle.index_page.specs.Search.{Finds, CutsAt};
ghost use Rattle.index_page.specs.Changes.{Inserts, Deletes, Sets};
ghost use Rattle.index_page.specs.Refusals.{insert_refusal, set_refusal};

use crate::body::Body;
use crate::charges::charge;
use crate::error::PageError;
use crate::page::Page;
use crate::spot::{Place, Spot};
use key_tuple::{Fields, Mode, NoMemory, Value};

impl Page {
    /// Puts a new row in and tells its place. Whether the key is there tells a search for it. After
    /// a refusal the page is as before.
    pub fn insert<A: Fields>(&mut self, key: &A, body: Body<'_>) -> Result<Place, PageError>
        requires fields { length (A.fields_of key.now) ≡ self.old.head.fields }
        requires limits { IsWithinLimits (A.fields_of key.now) }
        requires absent { LacksKey (A.fields_of key.now) self.old.rows }
        requires body { FitsLevel self.old.head.level (body_by body) }
        ensures ok { IfOk result (λ place. Inserts self.old self.new
            (placed_row place (A.fields_of key.now) (body_by body.entry))) }
        ensures refused { IfSome
            (insert_refusal self.old (A.fields_of key.now) (body_by body.entry))
            (λ e. result ≡ Err e) }
        ensures cause { IfErr result (λ e. (e ≡ PageError.NoMemory)
            ⊎ (insert_refusal self.old (A.fields_of key.now) (body_by body.entry) ≡ Some e)) }
        ensures err { OnErr result (self.new ≡ self.old) }
    {
        let cut = self.cut(key, Mode::Ge);
        self.enter(cut, key, body)
    }

    /// Puts a new row in at the spot that a search for its key with `Ge` told, and looks nothing up
    /// again. That the key is not there tell the spot's figures.
    pub fn insert_at<A: Fields>(
        &mut self,
        spot: &Spot,
        key: &A,
        body: Body<'_>,
    ) -> Result<Place, PageError>
        requires spot { Finds Mode.Ge (A.fields_of key.now) self.old.rows spot.now }
        requires absent { spot.now.up.fields ≢ length (A.fields_of key.now) }
        requires fields { length (A.fields_of key.now) ≡ self.old.head.fields }
        requires limits { IsWithinLimits (A.fields_of key.now) }
        requires body { FitsLevel self.old.head.level (body_by body) }
        ensures ok { IfOk result (λ place. Inserts self.old self.new
            (placed_row place (A.fields_of key.now) (body_by body.entry))) }
        ensures refused { IfSome
            (insert_refusal self.old (A.fields_of key.now) (body_by body.entry))
            (λ e. result ≡ Err e) }
        ensures cause { IfErr result (λ e. (e ≡ PageError.NoMemory)
            ⊎ (insert_refusal self.old (A.fields_of key.now) (body_by body.entry) ≡ Some e)) }
        ensures err { OnErr result (self.new ≡ self.old) }
    {
        self.is_in_order();
        self.enter(spot.cut, key, body)
    }

    /// Puts a new row in where the cut before its key is, if it has room.
    fn enter<A: Fields>(&mut self, cut: usize, key: &A, body: Body<'_>) -> Result<Place, PageError>
        requires cut { CutsAt Mode.Ge (A.fields_of key.now) self.old.rows cut }
        requires absent { LacksKey (A.fields_of key.now) self.old.rows }
        requires fields { length (A.fields_of key.now) ≡ self.old.head.fields }
        requires limits { IsWithinLimits (A.fields_of key.now) }
        requires body { FitsLevel self.old.head.level (body_by body) }
        ensures ok { IfOk result (λ place. Inserts self.old self.new
            (placed_row place (A.fields_of key.now) (body_by body.entry))) }
        ensures refused { IfSome
            (insert_refusal self.old (A.fields_of key.now) (body_by body.entry))
            (λ e. result ≡ Err e) }
        ensures cause { IfErr result (λ e. (e ≡ PageError.NoMemory)
            ⊎ (insert_refusal self.old (A.fields_of key.now) (body_by body.entry) ≡ Some e)) }
        ensures err { OnErr result (self.new ≡ self.old) }
    {
        let need = charge(key, body);
        if let Some(refusal) = self.refusal(need) {
            return Err(refusal);
        }
        Ok(self.put_in(cut, key, body, need)?)
    }

    /// The same where there is room for what it needs.
    fn put_in<A: Fields>(
        &mut self,
        cut: usize,
        key: &A,
        body: Body<'_>,
        need: u16,
    ) -> Result<Place, NoMemory>
        requires cut { CutsAt Mode.Ge (A.fields_of key.now) self.old.rows cut }
        requires absent { LacksKey (A.fields_of key.now) self.old.rows }
        requires fields { length (A.fields_of key.now) ≡ self.old.head.fields }
        requires limits { IsWithinLimits (A.fields_of key.now) }
        requires body { FitsLevel self.old.head.level (body_by body) }
        requires need { need ≡ charge_of (A.fields_of key.now) (body_by body) }
        requires room { load_of self.old.rows + need ≤ PAGE_ROOM }
        ensures ok { IfOk result (λ place. Inserts self.old self.new
            (placed_row place (A.fields_of key.now) (body_by body.entry))) }
        ensures err { OnErr result (self.new ≡ self.old) }
    {
        let place = self.rows.insert_at(cut, key, body.beside())?;
        self.load += need;
        Ok(place)
    }

    /// Gives the row at a place another value, and tells where it stands then. A value that is no
    /// longer than the one before is written in its place and never refused, and no memory is taken
    /// for it. After a refusal the page is as before.
    pub fn set(&mut self, place: Place, value: &Value) -> Result<Place, PageError>
        requires there { IsSome (find_row place self.old.rows) }
        requires level { self.old.head.level ≡ 0 }
        ensures ok { IfOk result (λ other. Sets self.old self.new place other value.now) }
        ensures no_longer { (row : Row) (before : List ℕ) → find_row place self.old.rows ≡ Some row
            → row.body ≡ Bytes before → length value.now ≤ length before → IsOk result }
        ensures refused { IfSome (set_refusal self.old place value.now) (λ e. result ≡ Err e) }
        ensures cause { IfErr result (λ e. (e ≡ PageError.NoMemory)
            ⊎ (set_refusal self.old place value.now ≡ Some e)) }
        ensures err { OnErr result (self.new ≡ self.old) }
    {
        self.is_in_order();
        if let Some(refusal) = self.refusal_to_set(place, value) {
            return Err(refusal);
        }
        Ok(self.rewrite(place, value)?)
    }

    /// The same where there is room for it.
    fn rewrite(&mut self, place: Place, value: &Value) -> Result<Place, NoMemory>
        requires there { IsSome (find_row place self.old.rows) }
        requires level { self.old.head.level ≡ 0 }
        requires room { set_refusal self.old place value.now ≡ None }
        ensures ok { IfOk result (λ other. Sets self.old self.new place other value.now) }
        ensures no_longer { (row : Row) (before : List ℕ) → find_row place self.old.rows ≡ Some row
            → row.body ≡ Bytes before → length value.now ≤ length before → IsOk result }
        ensures err { OnErr result (self.new ≡ self.old) }
    {
        let load = self.load_with(place, value);
        let at = self.position(place);
        self.rows.rewrite_at(at, value.as_bytes())?;
        self.load = load;
        Ok(place)
    }

    /// Takes the row at a place out.
    pub fn delete(&mut self, place: Place)
        requires { IsSome (find_row place self.old.rows) }
        ensures { Deletes self.old self.new place }
    {
        let at = self.position(place);
        self.load -= self.charge_at(place);
        self.rows.remove_at(at);
    }
}
