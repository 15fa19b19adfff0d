//! The steps on the table: a load, and an exchange after it.
ghost use Rattle.std.specs.Prelude.{◌≡◌, ◌<◌, length, Some, MatchOption};
ghost use Rattle.search_info.specs.declared.outcome.Learn.TheVariants as told;
ghost use Rattle.search_info.specs.Exchanges.{HasRead, ExchangeTells};
ghost use Rattle.search_info.specs.Outcomes.{TellsLearn};
ghost use Rattle.search_info.specs.Passes.{knowledge, opening, IsLearnPassOf, IsSameLearnPass, IsSeatOf, IsSameSeat, IsEventAt};
ghost use Rattle.search_info.specs.Steps.{Loaded, HitTells, MissTells, MayExchange, KeepsNumbers};

use crate::knows::Knows;
use crate::learner::Learner;
use crate::outcome::Learn;
use crate::pass::LearnPass;
use crate::plays::{Asks, Exchanges, Loads};
use atomic_table::Seat;
use learning::{Event, Info, learn, pack, should_build, unpack};
use std::marker::Brand;

impl Learner {
    /// A load for an event, or for none.
    pub(crate) fn load_at<X: Asks>(
        &self,
        seat: &mut Seat<u64, Knows>,
        index: usize,
        event: &Option<Event>,
    ) -> u64
        requires own { IsSeatOf self.now seat.old }
        requires picked { X.event ≡ event.now }
        requires live { seat.old.me.0.low < seat.old.me.0.end }
        requires index { index < length (opening self.now).starts }
        ensures own { IsSameSeat seat.old seat.new }
        ensures did { Loaded event.now seat.old.me.0 index result seat.new.me.0 }
        ensures same { KeepsNumbers seat.old.me.0 seat.new.me.0 }
        ensures slots { seat.new.me.1 ≡ seat.old.me.1 }
    {
        self.table.shared.load::<Loads<X>>(seat, index)
    }

    fn exchange_at<X: Asks>(
        &self,
        seat: &mut Seat<u64, Knows>,
        index: usize,
        event: &Event,
        old: u64,
        new: u64,
    ) -> u64
        requires own { IsSeatOf self.now seat.old }
        requires picked { X.event ≡ Some event.now }
        requires live { seat.old.me.0.low < seat.old.me.0.end }
        requires index { index < length (opening self.now).starts }
        requires rule { MayExchange seat.old.me.0 index old new event.now }
        ensures own { IsSameSeat seat.old seat.new }
        ensures hit { HitTells seat.old.me.0 index event.now old result seat.new.me.0 }
        ensures missed { MissTells seat.old.me.0 index event.now old result seat.new.me.0 }
        ensures same { KeepsNumbers seat.old.me.0 seat.new.me.0 }
        ensures slots { seat.new.me.1 ≡ seat.old.me.1 }
    {
        self.table
            .shared
            .compare_exchange::<Exchanges<X>>(seat, index, old, new)
    }

    /// The load of a call that counts an event: the word, and what it says, unless it is worn.
    /// `exchange` is the other half, and what other passes count between is told by it.
    pub fn read(&self, pass: &mut LearnPass, index: u32, event: &Event) -> Option<(u64, Info)>
        requires own { IsLearnPassOf self.now pass.old }
        requires event { IsEventAt self.now index event.now }
        ensures own { IsSameLearnPass pass.old pass.new × IsLearnPassOf self.now pass.new }
        ensures read { MatchOption result
            (TellsLearn (knowledge pass.old) index event.now told.Worn (knowledge pass.new))
            (λ r. HasRead (knowledge pass.new) index event.now r.0 r.1) }
    {
        let word = self.load_at::<Brand>(&mut pass.seat, index as usize, &Some(*event));
        let before = unpack(word);
        if before.events == u32::MAX {
            return None;
        }
        Some((word, before))
    }

    /// Counts the event behind the list whose word was loaded, if no other event came between.
    pub fn exchange(
        &self,
        pass: &mut LearnPass,
        index: u32,
        event: &Event,
        word: u64,
        before: &Info,
    ) -> Learn
        requires own { IsLearnPassOf self.now pass.old }
        requires read { HasRead (knowledge pass.old) index event.now word before.now }
        ensures own { IsSameLearnPass pass.old pass.new × IsLearnPassOf self.now pass.new }
        ensures did { ExchangeTells (knowledge pass.old) index event.now before.now result
            (knowledge pass.new) }
    {
        let after = learn(before, event);
        let build = should_build(before, event);
        let new = pack(&after);
        let found = self.exchange_at::<Brand>(&mut pass.seat, index as usize, event, word, new);
        if found == word {
            Learn::Learnt {
                before: *before,
                after,
                build,
            }
        } else {
            Learn::Raced {
                read: *before,
                found: unpack(found),
            }
        }
    }
}
