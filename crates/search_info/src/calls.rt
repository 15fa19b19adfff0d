//! The calls that look and learn. Each makes one load and at most one exchange.
ghost use Rattle.std.specs.Prelude.{◌<◌, ◌≤◌, length};
ghost use Rattle.learning.specs.declared.event.Event.TheVariants as kind;
ghost use Rattle.key_tuple.specs.Fold.{asked_fields};
ghost use Rattle.learning.specs.Bounds.{AreFiguresOf};
ghost use Rattle.search_info.specs.Outcomes.{Recommends, CountsAll, TellsLearn, TellsBlock, descent_of};
ghost use Rattle.search_info.specs.Passes.{knowledge, opening, IsLearnPassOf, IsSameLearnPass, HasUnique, IsEventAt};

use crate::learner::Learner;
use crate::outcome::Learn;
use crate::pass::LearnPass;
use learning::{BlockFigures, Descent, Event, Figures, Info, learn_block, unpack};
use std::marker::Brand;

impl Learner {
    /// What an index has learnt.
    pub fn recommend(&self, pass: &mut LearnPass, index: u32) -> Info
        requires own { IsLearnPassOf self.now pass.old }
        requires index { index < length (opening self.now).starts }
        ensures own { IsSameLearnPass pass.old pass.new × IsLearnPassOf self.now pass.new }
        ensures did { Recommends (knowledge pass.old) index result (knowledge pass.new) }
        ensures all { CountsAll (knowledge pass.new) index result }
    {
        let found = self.load_at::<Brand>(&mut pass.seat, index as usize, &None);
        unpack(found)
    }

    /// Counts that the hash answered a search.
    pub fn after_hit(&self, pass: &mut LearnPass, index: u32) -> Learn
        requires own { IsLearnPassOf self.now pass.old }
        requires index { index < length (opening self.now).starts }
        ensures own { IsSameLearnPass pass.old pass.new × IsLearnPassOf self.now pass.new }
        ensures did { TellsLearn (knowledge pass.old) index kind.Hit result (knowledge pass.new) }
    {
        self.after(pass, index, &Event::Hit)
    }

    /// Counts that the hash was asked and could not answer.
    pub fn after_miss(&self, pass: &mut LearnPass, index: u32) -> Learn
        requires own { IsLearnPassOf self.now pass.old }
        requires index { index < length (opening self.now).starts }
        ensures own { IsSameLearnPass pass.old pass.new × IsLearnPassOf self.now pass.new }
        ensures did { TellsLearn (knowledge pass.old) index kind.Miss result (knowledge pass.new) }
    {
        self.after(pass, index, &Event::Miss)
    }

    /// Counts a search that went down the tree to a leaf with so many rows, and teaches the leaf's
    /// block. `unique` is the index's number of fields, as `Learner::unique` tells.
    pub fn after_descent(
        &self,
        pass: &mut LearnPass,
        index: u32,
        unique: u8,
        figures: &Figures,
        block: &mut BlockFigures,
        rows: u16,
    ) -> Learn
        requires own { IsLearnPassOf self.now pass.old }
        requires unique { HasUnique self.now index unique }
        requires figures { AreFiguresOf unique figures.now }
        requires advice { asked_fields block.old.advice ≤ unique }
        ensures own { IsSameLearnPass pass.old pass.new × IsLearnPassOf self.now pass.new }
        ensures did { let d = descent_of unique figures.now block.old rows in
            TellsLearn (knowledge pass.old) index (kind.Descent d) result (knowledge pass.new) }
        ensures block { TellsBlock (descent_of unique figures.now block.old rows) result block.new }
    {
        let descent = Descent {
            unique,
            figures: *figures,
            block: *block,
            rows,
        };
        let learn = self.after(pass, index, &Event::Descent(descent));
        if let Learn::Learnt { before, .. } = &learn {
            *block = learn_block(before, &descent);
        }
        learn
    }

    fn after(&self, pass: &mut LearnPass, index: u32, event: &Event) -> Learn
        requires own { IsLearnPassOf self.now pass.old }
        requires event { IsEventAt self.now index event.now }
        ensures own { IsSameLearnPass pass.old pass.new × IsLearnPassOf self.now pass.new }
        ensures did { TellsLearn (knowledge pass.old) index event.now result (knowledge pass.new) }
    {
        let word = self.load_at::<Brand>(&mut pass.seat, index as usize, &Some(*event));
        let before = unpack(word);
        if before.events == u32::MAX {
            return Learn::Worn;
        }
        self.exchange(pass, index, event, word, &before)
    }
}
