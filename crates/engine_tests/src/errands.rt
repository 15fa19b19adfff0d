//! What callers do to rows of two indexes.
ghost use Rattle.std.specs.Prelude.{◌≡◌, ◌<◌, length};
ghost use Rattle.latch_space.specs.Passes.{count, IsSamePass};
ghost use Rattle.latch_space.specs.Spaces.{IsPassOf};

use crate::asked::{Text, value_of};
use crate::claims::{ensure, ensure_at};
use crate::plot::{hold_leaf, put_once};
use crate::site::{Caller, Site};
use buffer_pool::PoolError;
use engine_law::Found;
use forest_world::ForestPass;
use index_page::{Body, PageError, charge};
use key_tuple::{Key, Value};
use leaf_changes::TreeCall;
use map_history::{How, Note, Reply, RowBuf, Told};
use std::alloc::Global;
use std::process::Abort;
use std::sync::Wait;
use tree_growth::make_room;
use tree_shrinking::shrink;

/// How many changes an index may have.
const MOST: u64 = 1_000_000;

/// What is done to rows.
#[derive(Clone, Copy)]
pub(crate) enum Errand {
    /// They are put, with this value.
    Puts(Text),
    /// They get this value.
    Sets(Text),
    /// They are taken out, and light pages are merged.
    Dels,
    /// They are taken out, and no page is merged.
    Strikes,
    /// They are looked for.
    Gets,
}

/// A errand of an index, the first row that it is done to, the step to each next one, and how many
/// there are.
pub(crate) type Errands = (u32, Errand, u32, u32, u32);

/// The key of the row with this number.
pub(crate) fn key_of_row<R: AllocGlobal + Abort>(rt: &R, row: u32) -> Key
    ensures { length result.tuple ≡ 1 }
{
    sample_rows::key_of(rt.alloc(), &row.to_be_bytes()).expect(rt, "a key")
}

/// A call about the key of an index.
fn call_of<'a, R>(
    site: &'a Site,
    alloc: Global,
    index: u32,
    key: &'a Key,
    wait: &'a R,
) -> TreeCall<'a, R>
    requires there { index < 2 }
    requires one { length key.now.tuple ≡ 1 }
    ensures space { result.space.now ≡ site.now.space }
{
    let found = Found {
        how: How::Cold,
        note: Note::No,
    };
    TreeCall {
        space: &site.space,
        alloc,
        index,
        key,
        found,
        wait,
    }
}

/// Sets the value of a row, if its leaf has room for it.
fn set_once<R: Wait>(
    call: &TreeCall<'_, R>,
    pass: &mut ForestPass,
    most: u64,
    value: &Value,
) -> Result<Told, PageError>
    requires own { IsPassOf call.now.space.now pass.old }
    requires most { most ≡ call.now.space.now.terms.max_changes }
    requires nothing { count pass.old ≡ 0 }
    ensures own { IsSamePass pass.old pass.new × IsPassOf call.now.space.now pass.new }
    ensures nothing { count pass.new ≡ 0 }
{
    let leaf = hold_leaf(call, pass);
    let part = call.hold_to_change(pass, &leaf);
    let told = call.set_held(pass, &leaf, most, value);
    call.let_both_go(pass, leaf.block, part);
    told
}

/// Takes a row out.
fn strike<R: Wait>(call: &TreeCall<'_, R>, pass: &mut ForestPass) -> Told
    requires own { IsPassOf call.now.space.now pass.old }
    requires nothing { count pass.old ≡ 0 }
    ensures own { IsSamePass pass.old pass.new × IsPassOf call.now.space.now pass.new }
    ensures nothing { count pass.new ≡ 0 }
{
    let leaf = hold_leaf(call, pass);
    let part = call.hold_to_change(pass, &leaf);
    let told = call.del_held(pass, &leaf);
    call.let_both_go(pass, leaf.block, part);
    told
}

/// Looks for a row.
fn look<R: Wait>(call: &TreeCall<'_, R>, pass: &mut ForestPass, out: &mut RowBuf) -> Told
    requires own { IsPassOf call.now.space.now pass.old }
    requires nothing { count pass.old ≡ 0 }
    ensures own { IsSamePass pass.old pass.new × IsPassOf call.now.space.now pass.new }
    ensures nothing { count pass.new ≡ 0 }
{
    let leaf = hold_leaf(call, pass);
    call.get(pass, &leaf, out)
}

/// Makes room for a row, and tells whether there is.
fn find_room<R: Wait>(call: &TreeCall<'_, R>, pass: &mut ForestPass, value: &Value) -> bool
    requires own { IsPassOf call.now.space.now pass.old }
    requires nothing { count pass.old ≡ 0 }
    ensures own { IsSamePass pass.old pass.new × IsPassOf call.now.space.now pass.new }
    ensures nothing { count pass.new ≡ 0 }
{
    call.key.tuple().is_within_limits();
    let need = charge(call.key, Body::Value(value));
    let room = make_room(
        call.alloc, call.space, pass, call.index, call.key, need, call.wait,
    );
    match room {
        Ok(()) => true,
        Err(refusal) => match refusal {
            PoolError::SpaceFull => false,
            PoolError::NoMemory => false,
        },
    }
}

/// Merges the leaf of the key, where it is light.
fn merge<R: Wait>(call: &TreeCall<'_, R>, pass: &mut ForestPass) -> bool
    requires own { IsPassOf call.now.space.now pass.old }
    requires nothing { count pass.old ≡ 0 }
    ensures own { IsSamePass pass.old pass.new × IsPassOf call.now.space.now pass.new }
    ensures nothing { count pass.new ≡ 0 }
{
    let merged = shrink(
        call.alloc, call.space, pass, call.index, call.key, call.wait,
    );
    merged.is_ok()
}

impl Caller<'_> {
    /// One try of a errand: nothing is told where the leaf has no room.
    fn attempt<R: AllocGlobal + Abort + Wait>(
        &mut self,
        rt: &R,
        index: u32,
        key: &Key,
        errand: Errand,
        value: &Value,
    ) -> Result<Told, PageError>
        requires there { index < 2 }
        requires one { length key.now.tuple ≡ 1 }
    {
        let call = call_of(self.site, rt.alloc(), index, key, rt);
        let pass = &mut self.pass;
        match errand {
            Errand::Puts(_) => put_once(&call, pass, MOST, value),
            Errand::Sets(_) => set_once(&call, pass, MOST, value),
            Errand::Dels | Errand::Strikes => Ok(strike(&call, pass)),
            Errand::Gets => {
                let mut out = RowBuf::new(rt.alloc()).expect(rt, "a row buffer");
                Ok(look(&call, pass, &mut out))
            }
        }
    }

    /// Makes room for a row, and tells whether there is.
    fn find_room<R: AllocGlobal + Wait>(
        &mut self,
        rt: &R,
        index: u32,
        key: &Key,
        value: &Value,
    ) -> bool
        requires there { index < 2 }
        requires one { length key.now.tuple ≡ 1 }
    {
        let call = call_of(self.site, rt.alloc(), index, key, rt);
        find_room(&call, &mut self.pass, value)
    }

    /// Merges the leaf of the key, where it is light.
    fn merge<R: AllocGlobal + Wait>(&mut self, rt: &R, index: u32, key: &Key) -> bool
        requires there { index < 2 }
        requires one { length key.now.tuple ≡ 1 }
    {
        let call = call_of(self.site, rt.alloc(), index, key, rt);
        merge(&call, &mut self.pass)
    }

    /// Does the errand to one row, and tells what is replied.
    pub(crate) fn work<R: AllocGlobal + Abort + Wait>(
        &mut self,
        rt: &R,
        index: u32,
        errand: Errand,
        row: u32,
    ) -> Reply {
        ensure(rt, index < 2, "one of two indexes");
        let key = key_of_row(rt, row);
        let value = value_of(rt, rt.alloc(), text_of(errand));
        let reply = self.try_often(rt, index, &key, errand, &value);
        if matches!(errand, Errand::Dels) {
            ensure(rt, self.merge(rt, index, &key), "memory for a merge");
        }
        reply
    }

    /// Tries the errand until it is replied to: where a leaf has no room, it is made.
    fn try_often<R: AllocGlobal + Abort + Wait>(
        &mut self,
        rt: &R,
        index: u32,
        key: &Key,
        errand: Errand,
        value: &Value,
    ) -> Reply
        requires there { index < 2 }
        requires one { length key.now.tuple ≡ 1 }
    {
        for _ in rt.forever() {
            if let Ok(told) = self.attempt(rt, index, key, errand, value) {
                return told.reply;
            }
            ensure(rt, self.find_room(rt, index, key, value), "room for a row");
        }
        unreachable!()
    }

    /// Does these errands to each of their rows, which are there where they have to be.
    pub(crate) fn work_all<R: AllocGlobal + Abort + Wait>(&mut self, rt: &R, errands: Errands) {
        let (index, errand, first, step, rows) = errands;
        let wanted = if matches!(errand, Errand::Gets) {
            Reply::Found
        } else {
            Reply::Ok
        };
        for number in 0..rows {
            let row = first.wrapping_add(number.wrapping_mul(step));
            let reply = self.work(rt, index, errand, row);
            ensure_at(rt, reply == wanted, "row", row as usize);
        }
    }
}

/// The value that a errand has, or an empty one.
fn text_of(errand: Errand) -> Text {
    match errand {
        Errand::Puts(text) | Errand::Sets(text) => text,
        Errand::Dels | Errand::Strikes | Errand::Gets => (b"", 0),
    }
}
