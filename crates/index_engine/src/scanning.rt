//! Scans.
ghost use Rattle.std.specs.Prelude.{◌<◌, OnOk, OnErr};
ghost use Rattle.tree_cursor.specs.Pieces.{fields_lent};
ghost use Rattle.index_scans.specs.Scans.{TellsOfScan, TriesForScan, StopsScan};
ghost use Rattle.index_engine.specs.Engines.{known, lessons_of, IsOf, IsSame, indexes_of, FitsTuple};
ghost use Rattle.index_engine.specs.Engines.{FitsEnd};
ghost use Rattle.index_engine.specs.Searched.{RunsFor};

use crate::engine::{Engine, EnginePass};
use index_scans::scan_rows;
use key_tuple::{NoMemory, Tuple};
use map_history::{Piece, Rows};
use std::sync::Wait;

impl Engine {
    /// The rows from FROM on that are below TO, in the order of keys, at most `limit` of them. The
    /// lists are emptied first. Then `pieces` gets the scan's pieces, and `rows` the rows of all of
    /// them, one behind the other. After `NoMemory` they have the pieces that were finished.
    pub fn scan<R: Wait>(
        &self,
        pass: &mut EnginePass,
        index: u32,
        from: &Tuple,
        to: Option<&Tuple>,
        limit: u32,
        pieces: &mut Vec<Piece>,
        rows: &mut Rows,
        wait: &R,
    ) -> Result<(), NoMemory>
        requires own { IsOf self.now pass.old }
        requires index { index < indexes_of self.now }
        requires from { FitsTuple self.now index from.now.fields }
        requires to { FitsEnd self.now index to }
        requires limit { 0 < limit }
        ensures own { IsSame pass.old pass.new × IsOf self.now pass.new }
        ensures told { OnOk result (TellsOfScan (known pass.old) (known pass.new)
            (lessons_of pass.new) index from.now.fields (fields_lent to.entry) limit
            pieces.new.items rows.new) }
        ensures runs { OnOk result (RunsFor pass.old index from.now.fields (fields_lent to.entry)
            limit pieces.new.items rows.new pass.new) }
        ensures tried { TriesForScan (lessons_of pass.old) index pieces.new.items
            (lessons_of pass.new) }
        ensures err { OnErr result (StopsScan (known pass.old) (known pass.new)
            (lessons_of pass.new) index from.now.fields (fields_lent to.entry) limit
            pieces.new.items rows.new) }
    {
        let (world, learn) = (&mut pass.world, &mut pass.learn);
        scan_rows(
            self.alloc,
            &self.space,
            world,
            &self.learner,
            learn,
            index,
            from,
            to,
            limit,
            pieces,
            rows,
            wait,
        )
    }
}
