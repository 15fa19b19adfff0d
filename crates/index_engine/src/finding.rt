//! The leaf of a key is found, by the hash or by a way down.
ghost use Rattle.std.specs.Prelude.{◌≡◌, ◌<◌, true};
ghost use Rattle.latch_space.specs.Passes.{view, count, IsSamePass};
ghost use Rattle.latch_space.specs.Spaces.{IsPassOf};
ghost use Rattle.map_history.specs.Columns.{may_stand};
ghost use Rattle.search_info.specs.Passes.{knowledge, IsLearnPassOf, IsSameLearnPass};
ghost use Rattle.buffer_pool.specs.Forests.{IsFittedTree};
ghost use Rattle.leaf_search.specs.KeySearches.{SearchesKey};
ghost use Rattle.leaf_search.specs.Searches.{Searches};
ghost use Rattle.leaf_search.specs.Traces.{SearchTrace};
ghost use Rattle.index_engine.specs.Engines.{indexes_of, FitsKey};
ghost use Rattle.leaf_changes.specs.Holds.{HoldsFreshAlone};
ghost use Rattle.engine_law.specs.Says.{columns_by};

use crate::engine::Engine;
use engine_law::Found;
use forest_world::ForestPass;
use key_tuple::{Key, Mode};
use leaf_changes::TreeCall;
use leaf_search::{KeySearch, Searched, key_spot, search_key};
use map_history::{How, Note};
use search_info::LearnPass;
use std::sync::Wait;
use tree_descent::Leaf;

impl Engine {
    /// Holds the leaf of the key, which is found by the hash or by a way down, as `mode` asks, and
    /// tells the key's row where the hash led to that.
    pub(crate) fn search<R: Wait>(
        &self,
        pass: &mut ForestPass,
        learn: &mut LearnPass,
        index: u32,
        key: &Key,
        mode: Mode,
        wait: &R,
    ) -> KeySearch
        requires own { IsPassOf self.now.space pass.old }
        requires learner { IsLearnPassOf self.now.learner learn.old }
        requires index { index < indexes_of self.now }
        requires key { FitsKey self.now index key.now.tuple }
        requires nothing { count pass.old ≡ 0 }
        ensures own { IsSamePass pass.old pass.new × IsPassOf self.now.space pass.new }
        ensures learner { IsSameLearnPass learn.old learn.new
            × IsLearnPassOf self.now.learner learn.new }
        ensures searched { SearchesKey pass.old (knowledge learn.old) index mode key.now.tuple
            result pass.new (knowledge learn.new) }
        ensures fits { IsFittedTree (view pass.new) }
    {
        search_key(
            &self.space,
            pass,
            &self.learner,
            learn,
            index,
            key,
            mode,
            wait,
        )
    }

    /// The same, and tells where the key belongs on the leaf.
    pub(crate) fn find<R: Wait>(
        &self,
        pass: &mut ForestPass,
        learn: &mut LearnPass,
        index: u32,
        key: &Key,
        mode: Mode,
        wait: &R,
    ) -> Searched
        requires own { IsPassOf self.now.space pass.old }
        requires learner { IsLearnPassOf self.now.learner learn.old }
        requires index { index < indexes_of self.now }
        requires key { FitsKey self.now index key.now.tuple }
        requires nothing { count pass.old ≡ 0 }
        ensures own { IsSamePass pass.old pass.new × IsPassOf self.now.space pass.new }
        ensures learner { IsSameLearnPass learn.old learn.new
            × IsLearnPassOf self.now.learner learn.new }
        ensures searched { Searches pass.old (knowledge learn.old) index key.now.tuple result
            pass.new (knowledge learn.new) }
        ensures trace { SearchTrace pass.old (knowledge learn.old) index mode key.now.tuple result
            pass.new (knowledge learn.new) }
        ensures held { HoldsFreshAlone pass.new result.leaf.block index key.now.tuple
            result.leaf.spot }
    {
        match self.search(pass, learn, index, key, mode, wait) {
            KeySearch::Row { block, note, .. } => {
                let spot = key_spot(&self.space, pass, block, index, key);
                Searched {
                    leaf: Leaf { block, spot },
                    how: How::Hit,
                    note,
                }
            }
            KeySearch::Leaf(searched) => searched,
        }
    }

    /// A call about a key of an index, whose leaf was found so.
    pub(crate) fn call<'a, R>(
        &'a self,
        index: u32,
        key: &'a Key,
        how: How,
        note: Note,
        wait: &'a R,
    ) -> TreeCall<'a, R>
        requires index { index < indexes_of self.now }
        requires key { FitsKey self.now index key.now.tuple }
        requires stands { may_stand (record { how = how; note = note }) ≡ true }
        ensures space { result.space.now ≡ self.now.space }
        ensures about { (result.index ≡ index) × (result.key.now ≡ key.now) }
        ensures found { columns_by result.found ≡ record { how = how; note = note } }
    {
        let found = Found { how, note };
        TreeCall {
            space: &self.space,
            alloc: self.alloc,
            index,
            key,
            found,
            wait,
        }
    }
}
