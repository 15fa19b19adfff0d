//! Cutting a pass in two, and joining two.
ghost use Rattle.std.specs.Prelude.{◌≡◌, ◌+◌, ◌≤◌, IsOk, IfOk};
ghost use Rattle.search_info.specs.Parts.{lower_part, upper_part, joined_parts};
ghost use Rattle.search_info.specs.Passes.{knowledge, IsLearnPassOf, IsSameLearnPass};

use crate::learner::Learner;
use crate::pass::LearnPass;
use crate::plays::{Cut, Glue};
use key_tuple::NoMemory;

impl LearnPass {
    /// The pass's lowest number, which is its name, and the end of its numbers.
    pub fn numbers(&self) -> (u32, u32)
        ensures low { result.0 ≡ (knowledge self.now).low }
        ensures end { result.1 ≡ (knowledge self.now).end }
    {
        (self.low, self.end)
    }
}

impl Learner {
    /// Makes a new pass of the upper half of the numbers, of which there are at least two. It takes no
    /// memory, so it is never refused.
    pub fn split(&self, pass: &mut LearnPass) -> Result<LearnPass, NoMemory>
        requires own { IsLearnPassOf self.now pass.old }
        requires two { (knowledge pass.old).low + 2 ≤ (knowledge pass.old).end }
        ensures ok { IsOk result }
        ensures own { IsSameLearnPass pass.old pass.new × IsLearnPassOf self.now pass.new }
        ensures kept { knowledge pass.new ≡ lower_part (knowledge pass.old) }
        ensures given { IfOk result (λ p. IsLearnPassOf self.now p
            × (knowledge p ≡ upper_part (knowledge pass.old))) }
    {
        let middle = pass.low + (pass.end - pass.low) / 2;
        let end = pass.end;
        let seat = self.table.shared.split_seat::<Cut>(&mut pass.seat);
        pass.end = middle;
        Ok(LearnPass {
            seat,
            low: middle,
            end,
        })
    }

    /// Takes in a pass whose numbers follow.
    pub fn join(&self, pass: &mut LearnPass, other: LearnPass)
        requires own { IsLearnPassOf self.now pass.old }
        requires others { IsLearnPassOf self.now other }
        requires next { (knowledge pass.old).end ≡ (knowledge other).low }
        ensures own { IsSameLearnPass pass.old pass.new × IsLearnPassOf self.now pass.new }
        ensures did { knowledge pass.new ≡ joined_parts (knowledge pass.old) (knowledge other) }
    {
        let end = other.end;
        let seat = other.into_seat();
        self.table.shared.join_seat::<Glue>(&mut pass.seat, seat);
        pass.end = end;
    }
}
