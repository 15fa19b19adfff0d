//! A list of rows in one buffer.
ghost use Rattle.std.specs.Prelude.{◌≡◌, ◌<◌, [], ◌∷◌, ◌++◌, length, take, OnOk, OnErr, slice_index_or};
ghost use Rattle.map_history.specs.Rows.{row_at, row_from, IsReadable};

use crate::part_list::{PartList, start_of};
use key_tuple::{Fields, NoMemory};
use std::alloc::{AllocError, Global};
use std::marker::Model;

/// Rows one after another, each seen as its key's fields and its value.
#[derive(Drop)]
pub struct Rows {
    parts: PartList,
    ends: Vec<usize>,
}

impl Model for Rows {
    ghost use Rattle.map_history.specs.Map.{Map};
    ghost use Rattle.map_history.specs.Rows.{rows_of_parts, AreRows};

    ghost Value = { Map };

    ghost view = { λ r. rows_of_parts r.parts r.ends.items };

    ghost invariant = { λ r. AreRows r.parts r.ends.items };
}

impl Rows {
    /// No rows.
    pub fn new(alloc: Global) -> Rows
        ensures { result ≡ [] }
    {
        Rows {
            parts: PartList::new(alloc),
            ends: Vec::new(alloc),
        }
    }

    /// Puts a row behind the others. After `NoMemory` the rows are as before.
    pub fn push<A: Fields>(&mut self, key: &A, value: &[u8]) -> Result<(), NoMemory>
        ensures ok { OnOk result (self.new
            ≡ self.old ++ row_from (A.fields_of key.now) value.now ∷ []) }
        ensures err { OnErr result (self.new ≡ self.old) }
    {
        self.ends.reserve(1)?;
        let start = self.parts.count();
        if add_row(&mut self.parts, key, value).is_err() {
            self.parts.truncate(start);
            return Err(NoMemory);
        }
        let _room_holds = self.ends.push(self.parts.count());
        Ok(())
    }

    /// How many rows there are.
    pub fn count(&self) -> usize
        ensures { result ≡ length self.now }
    {
        self.ends.len()
    }

    /// Keeps the first rows, as many as are said.
    pub fn cut(&mut self, count: usize)
        ensures { self.new ≡ take count self.old }
    {
        if count < self.ends.len() {
            let end = start_of(&self.ends, count);
            self.parts.truncate(end);
            self.ends.truncate(count);
        }
    }

    /// The row with that number, from 0.
    pub fn row(&self, i: usize) -> RowIn<'_>
        requires { i < length self.now }
        ensures { result ≡ row_at self.now i }
    {
        RowIn { rows: self, at: i }
    }

    fn field_count(&self, i: usize) -> u8
        requires { i < length self.now }
        ensures { result ≡ length (row_at self.now i).key }
    {
        (self.ends[i] - start_of(&self.ends, i) - 1) as u8
    }

    fn field(&self, i: usize, field: u8) -> &[u8]
        requires row { i < length self.now }
        requires field { field < length (row_at self.now i).key }
        ensures bytes { result.now ≡ slice_index_or (row_at self.now i).key field [] }
        ensures fits { length result.now < 65536 }
    {
        // A row's fields are its last parts.
        let left = usize::from(self.field_count(i) - field);
        self.parts.part(self.ends[i] - left)
    }

    fn value(&self, i: usize) -> &[u8]
        requires { i < length self.now }
        ensures { result.now ≡ (row_at self.now i).value }
    {
        self.parts.part(start_of(&self.ends, i))
    }
}

/// Puts a row's value and then its fields behind the parts. After an error some of them may be there.
fn add_row<A: Fields>(parts: &mut PartList, key: &A, value: &[u8]) -> Result<(), AllocError>
    ensures ok { OnOk result (parts.new ≡ parts.old ++ value.now ∷ A.fields_of key.now) }
    ensures readable { OnOk result (IsReadable (row_from (A.fields_of key.now) value.now)) }
    ensures err { OnErr result (take (length parts.old) parts.new ≡ parts.old) }
{
    parts.push(value)?;
    for i in 0..key.count() {
        parts.push(key.field(i))?;
    }
    Ok(())
}

/// One of the rows, lent.
#[derive(Drop)]
pub struct RowIn<'a> {
    rows: &'a Rows,
    at: usize,
}

impl<'a> Model for RowIn<'a> {
    ghost use Rattle.std.specs.Prelude.{◌<◌, length};
    ghost use Rattle.map_history.specs.Map.{Pair};
    ghost use Rattle.map_history.specs.Rows.{row_at};

    ghost Value = { Pair };

    ghost view = { λ r. row_at r.rows.now r.at };

    ghost invariant = { λ r. r.at < length r.rows.now };
}

impl<'a> RowIn<'a> {
    /// The value's bytes.
    pub fn value(&self) -> &[u8]
        ensures { result.now ≡ self.now.value }
    {
        self.rows.value(self.at)
    }
}

impl<'a> Fields for RowIn<'a> {
    ghost fields_of = { λ r. r.key };

    fn count(&self) -> u8 {
        self.rows.field_count(self.at)
    }

    fn field(&self, i: u8) -> &[u8] {
        self.rows.field(self.at, i)
    }
}
