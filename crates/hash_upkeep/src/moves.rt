//! A partition keeps up with rows that move from one block to another.
ghost use Rattle.std.specs.Prelude.{◌≡◌, ◌≢◌, ◌+◌, ◌++◌, [], length};
ghost use Rattle.hash_upkeep.specs.Hashing.{entries_if};
ghost use Rattle.hash_upkeep.specs.Cover.{RenewsBoth};
ghost use Rattle.hash_upkeep.specs.Upkeep.{LacksIfDropped, kept_entries};
ghost use Rattle.hash_upkeep.specs.Moves.{AreBothCovered, CanMove, IsMoveAnswer};
ghost use Rattle.hash_upkeep.specs.Moves.{from_then, from_was, to_then, to_was};

use crate::entering::{count_if, enter_if_hashed};
use crate::hashing::{Hashing, hashing_if};
use crate::leaving::leave_if;
use crate::upkeep::Upkeep;
use hash_partition::Partition;
use index_page::Page;
use key_tuple::Params;

/// Two blocks of an index, from one of which rows moved to the other, and with which parameters
/// each was hashed, if it was. Folds are cut to so many bits.
#[derive(Clone, Copy)]
pub struct Move {
    pub index: u32,
    pub bits: u8,
    pub from: u32,
    pub from_built: Option<Params>,
    pub to: u32,
    pub to_built: Option<Params>,
}

impl Move {
    /// How the block that gave rows was hashed.
    fn from_was(&self) -> Option<Hashing>
        ensures { result ≡ from_was self.now }
    {
        hashing_if(self.index, self.from, self.bits, self.from_built)
    }

    /// How the block that took rows was hashed.
    fn to_was(&self) -> Option<Hashing>
        ensures { result ≡ to_was self.now }
    {
        hashing_if(self.index, self.to, self.bits, self.to_built)
    }

    /// How the block that gave rows is hashed then: as before, if it still has a leaf.
    pub fn from_then(&self, level: u16) -> Option<Hashing>
        ensures { result ≡ from_then self.now level }
    {
        if level == 0 { self.from_was() } else { None }
    }

    /// How the block that took rows is hashed then: as before, or else as the other was.
    pub fn to_then(&self) -> Option<Hashing>
        ensures { result ≡ to_then self.now }
    {
        match self.to_built {
            Some(_) => self.to_was(),
            None => hashing_if(self.index, self.to, self.bits, self.from_built),
        }
    }
}

/// Keeps up with rows that moved. What both blocks had leaves, found by the folds of their rows.
/// Then both have the entries of the rows that they have now, or none where there is no room.
pub fn on_move(part: &mut Partition, from: &Page, to: &Page, blocks: &Move) -> Upkeep
    requires apart { blocks.now.from ≢ blocks.now.to }
    requires hash { CanMove blocks.now from.now to.now }
    requires covered { AreBothCovered blocks.now from.now to.now part.old.nodes }
    ensures answer { IsMoveAnswer blocks.now from.now to.now part.old result }
    ensures room { LacksIfDropped result part.new.spare
        (length (entries_if (from_then blocks.now from.now.head.level) from.now.rows)
        + length (entries_if (to_then blocks.now) to.now.rows)) }
    ensures part { RenewsBoth blocks.now.from
        (kept_entries result (entries_if (from_then blocks.now from.now.head.level) from.now.rows))
        blocks.now.to (kept_entries result (entries_if (to_then blocks.now) to.now.rows))
        part.old part.new }
{
    leave_both(part, from, to, blocks);
    let from_how = blocks.from_then(from.head().level);
    let to_how = blocks.to_then();
    let need = count_if(from, &from_how, blocks.from) + count_if(to, &to_how, blocks.to);
    let spare = part.spare();
    if spare < need {
        return Upkeep::Dropped { need, spare };
    }
    enter_if_hashed(part, from, &from_how, blocks.from);
    enter_if_hashed(part, to, &to_how, blocks.to);
    Upkeep::Kept
}

/// Takes out what both blocks have.
fn leave_both(part: &mut Partition, from: &Page, to: &Page, blocks: &Move)
    requires apart { blocks.now.from ≢ blocks.now.to }
    requires hash { CanMove blocks.now from.now to.now }
    requires covered { AreBothCovered blocks.now from.now to.now part.old.nodes }
    ensures { RenewsBoth blocks.now.from [] blocks.now.to [] part.old part.new }
{
    let from_how = blocks.from_was();
    leave_if(part, from, &from_how, blocks.from);
    leave_if(part, to, &from_how, blocks.from);
    leave_if(part, to, &blocks.to_was(), blocks.to);
}
