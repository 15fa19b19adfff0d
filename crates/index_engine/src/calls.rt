//! The operations.
ghost use Rattle.std.specs.Prelude.{◌≡◌, ◌≢◌, ◌<◌, None, IfOk, OnErr};
ghost use Rattle.key_tuple.specs.declared.mode.Mode.TheVariants as mode;
ghost use Rattle.map_history.specs.Map as map;
ghost use Rattle.map_history.specs.Operation as asked;
ghost use Rattle.map_history.specs.Told.{columns_told};
ghost use Rattle.index_law.specs.Meanings.{lent_row};
ghost use Rattle.search_info.specs.Tries.{TriesAfter};
ghost use Rattle.index_engine.specs.Engines.{known, lessons_of, IsOf, IsSame, indexes_of, FitsKey};
ghost use Rattle.index_engine.specs.Engines.{FitsTuple};
ghost use Rattle.index_engine.specs.Searched.{SearchedFor, SoughtFor};
ghost use Rattle.index_seeks.specs.SeekTraces.{TellsOfSeek};
ghost use Rattle.index_engine.specs.Traces.{TellsByLeaf, TellsOfDel, TellsOfWrite, GivesUp};
ghost use Rattle.index_engine.specs.Writes.{mode_of_write, write_asked};

use crate::deleting::delete_key;
use crate::engine::{Engine, EnginePass};
use crate::write::Write;
use crate::writing::write_key;
use index_seeks::seek_row;
use key_tuple::{Key, Mode, NoMemory, Tuple, Value};
use leaf_search::KeySearch;
use map_history::{How, Reply, RowBuf, Told};
use std::sync::Wait;

impl Engine {
    /// The value of the key: `Found`, with the row in `out`, or `Absent`.
    pub fn get<R: Wait>(
        &self,
        pass: &mut EnginePass,
        index: u32,
        key: &Key,
        out: &mut RowBuf,
        wait: &R,
    ) -> Told
        requires own { IsOf self.now pass.old }
        requires index { index < indexes_of self.now }
        requires key { FitsKey self.now index key.now.tuple }
        ensures own { IsSame pass.old pass.new × IsOf self.now pass.new }
        ensures told { TellsByLeaf (known pass.old) (known pass.new) (lessons_of pass.new) index
            key.now.tuple (asked.Get key.now.tuple) result out.new }
        ensures tried { TriesAfter (lessons_of pass.old) index result.how (lessons_of pass.new) }
        ensures searched { SearchedFor pass.old index mode.Ge key.now.tuple (columns_told result)
            pass.new }
        ensures kept { result.reply ≢ Reply.Found → out.new ≡ out.old }
    {
        let (world, learn) = (&mut pass.world, &mut pass.learn);
        match self.search(world, learn, index, key, Mode::Ge, wait) {
            KeySearch::Row { block, place, note } => self
                .call(index, key, How::Hit, note, wait)
                .read(&mut pass.world, block, place, out),
            KeySearch::Leaf(searched) => self
                .call(index, key, searched.how, searched.note, wait)
                .get(&mut pass.world, &searched.leaf, out),
        }
    }

    /// The row that the mode asks for: `Found`, with the row in `out`, or `Absent`. One that isn't
    /// on the leaf of the tuple's position is looked for on the leaves beside it.
    pub fn seek<R: Wait>(
        &self,
        pass: &mut EnginePass,
        index: u32,
        mode: Mode,
        tuple: &Tuple,
        out: &mut RowBuf,
        wait: &R,
    ) -> Told
        requires own { IsOf self.now pass.old }
        requires index { index < indexes_of self.now }
        requires tuple { FitsTuple self.now index tuple.now.fields }
        ensures own { IsSame pass.old pass.new × IsOf self.now pass.new }
        ensures told { TellsOfSeek (known pass.old) (known pass.new) (lessons_of pass.new) index mode
            tuple.now.fields result out.new }
        ensures tried { TriesAfter (lessons_of pass.old) index result.how (lessons_of pass.new) }
        ensures searched { SoughtFor pass.old index mode tuple.now.fields (columns_told result) pass.new }
    {
        let (world, learn) = (&mut pass.world, &mut pass.learn);
        seek_row(
            &self.space,
            world,
            &self.learner,
            learn,
            index,
            mode,
            tuple,
            out,
            wait,
        )
    }

    /// A new row: `Ok`, `Duplicate` where the key is there, `LogFull` where the index has had all
    /// the changes that it may, or `SpaceFull` where its leaf has no room and no page number is
    /// free. They are tried in the order `Duplicate`, `LogFull`, `SpaceFull`, `Ok`. After
    /// `NoMemory` no list has changed.
    pub fn put<R: Wait>(
        &self,
        pass: &mut EnginePass,
        index: u32,
        key: &Key,
        value: &Value,
        wait: &R,
    ) -> Result<Told, NoMemory>
        requires own { IsOf self.now pass.old }
        requires index { index < indexes_of self.now }
        requires key { FitsKey self.now index key.now.tuple }
        ensures own { IsSame pass.old pass.new × IsOf self.now pass.new }
        ensures ok { IfOk result (λ told. TellsOfWrite (known pass.old) (known pass.new) index
            key.now.tuple value.now (asked.Make (map.Put key.now.tuple value.now)) told
            (lent_row None)) }
        ensures tried { IfOk result (λ told. TriesAfter (lessons_of pass.old) index told.how
            (lessons_of pass.new)) }
        ensures searched { IfOk result (λ told. SearchedFor pass.old index mode.Le key.now.tuple
            (columns_told told) pass.new) }
        ensures err { OnErr result (GivesUp (known pass.old) (known pass.new) (lessons_of pass.old)
            (lessons_of pass.new) index key.now.tuple value.now) }
    {
        self.write(pass, index, key, Write::Put, value, wait)
    }

    /// Another value for a row: `Ok`, `Absent` where the key isn't there, `LogFull`, or `SpaceFull`
    /// where a longer value has no room on its row's leaf and no page number is free. They are
    /// tried in the order `Absent`, `LogFull`, `SpaceFull`, `Ok`. A value that is no longer than
    /// the one before takes no memory. After `NoMemory` no list has changed.
    pub fn set<R: Wait>(
        &self,
        pass: &mut EnginePass,
        index: u32,
        key: &Key,
        value: &Value,
        wait: &R,
    ) -> Result<Told, NoMemory>
        requires own { IsOf self.now pass.old }
        requires index { index < indexes_of self.now }
        requires key { FitsKey self.now index key.now.tuple }
        ensures own { IsSame pass.old pass.new × IsOf self.now pass.new }
        ensures ok { IfOk result (λ told. TellsOfWrite (known pass.old) (known pass.new) index
            key.now.tuple value.now (asked.Make (map.Set key.now.tuple value.now)) told
            (lent_row None)) }
        ensures tried { IfOk result (λ told. TriesAfter (lessons_of pass.old) index told.how
            (lessons_of pass.new)) }
        ensures searched { IfOk result (λ told. SearchedFor pass.old index mode.Ge key.now.tuple
            (columns_told told) pass.new) }
        ensures err { OnErr result (GivesUp (known pass.old) (known pass.new) (lessons_of pass.old)
            (lessons_of pass.new) index key.now.tuple value.now) }
    {
        self.write(pass, index, key, Write::Set, value, wait)
    }

    /// A row taken out: `Ok`, `Absent` where the key isn't there, or `LogFull`.
    pub fn del<R: Wait>(&self, pass: &mut EnginePass, index: u32, key: &Key, wait: &R) -> Told
        requires own { IsOf self.now pass.old }
        requires index { index < indexes_of self.now }
        requires key { FitsKey self.now index key.now.tuple }
        ensures own { IsSame pass.old pass.new × IsOf self.now pass.new }
        ensures told { TellsOfDel (known pass.old) (known pass.new) index key.now.tuple result }
        ensures tried { TriesAfter (lessons_of pass.old) index result.how (lessons_of pass.new) }
        ensures searched { SearchedFor pass.old index mode.Ge key.now.tuple (columns_told result)
            pass.new }
    {
        let (world, learn) = (&mut pass.world, &mut pass.learn);
        let searched = self.find(world, learn, index, key, Mode::Ge, wait);
        let call = self.call(index, key, searched.how, searched.note, wait);
        delete_key(&call, &mut pass.world, &searched.leaf)
    }

    /// A put or a set.
    fn write<R: Wait>(
        &self,
        pass: &mut EnginePass,
        index: u32,
        key: &Key,
        write: Write,
        value: &Value,
        wait: &R,
    ) -> Result<Told, NoMemory>
        requires own { IsOf self.now pass.old }
        requires index { index < indexes_of self.now }
        requires key { FitsKey self.now index key.now.tuple }
        ensures own { IsSame pass.old pass.new × IsOf self.now pass.new }
        ensures ok { IfOk result (λ told. TellsOfWrite (known pass.old) (known pass.new) index
            key.now.tuple value.now (write_asked write key.now.tuple value.now) told
            (lent_row None)) }
        ensures tried { IfOk result (λ told. TriesAfter (lessons_of pass.old) index told.how
            (lessons_of pass.new)) }
        ensures searched { IfOk result (λ told. SearchedFor pass.old index (mode_of_write write) key.now.tuple
            (columns_told told) pass.new) }
        ensures err { OnErr result (GivesUp (known pass.old) (known pass.new) (lessons_of pass.old)
            (lessons_of pass.new) index key.now.tuple value.now) }
    {
        let most = u64::from(pass.sizes.max_changes);
        let (world, learn) = (&mut pass.world, &mut pass.learn);
        let searched = self.find(world, learn, index, key, write.mode(), wait);
        let call = self.call(index, key, searched.how, searched.note, wait);
        write_key(&call, &mut pass.world, &searched.leaf, most, write, value)
    }
}
