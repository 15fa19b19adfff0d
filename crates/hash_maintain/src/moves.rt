//! Rows that moved from one frame to another.
ghost use Rattle.std.specs.Prelude.{◌≡◌, ◌≢◌, Some};
ghost use Rattle.index_page.specs.Page.{PageRows};
ghost use Rattle.hash_upkeep.specs.Moves.{IsMoveAnswer, from_then, to_then};
ghost use Rattle.hash_maintain.specs.Moves.{KeepsUpBoth, MayMove, frame_hashed, how_then};

use crate::leaves::leaf_page;
use forest_world::Frame;
use hash_partition::Partition;
use hash_upkeep::{Hashing, Move, Upkeep, entries_are_owed, on_move};

/// Keeps up with rows that moved between two blocks of an index, or drops both where there is no room.
/// Both are hashed then as they were, and a block that wasn't is hashed as the one that gave the rows.
pub fn rows_moved(part: &mut Partition, from: &mut Frame, to: &mut Frame, blocks: &Move) -> Upkeep
    requires apart { blocks.now.from ≢ blocks.now.to }
    requires may { MayMove blocks.now from.old to.old part.old }
    ensures answer { (a b : PageRows) → from.old.page ≡ Some a → to.old.page ≡ Some b
        → IsMoveAnswer blocks.now a b part.old result }
    ensures from { (page : PageRows) → from.old.page ≡ Some page → from.new
        ≡ frame_hashed (how_then result (from_then blocks.now page.head.level)) from.old }
    ensures to { to.new ≡ frame_hashed (how_then result (to_then blocks.now)) to.old }
    ensures part { KeepsUpBoth blocks.now from.new to.new part.old part.new }
{
    entries_are_owed();
    let page = leaf_page(from);
    let level = page.head().level;
    let answer = on_move(part, page, leaf_page(to), blocks);
    hash_as(from, kept_how(&answer, blocks.from_then(level)));
    hash_as(to, kept_how(&answer, blocks.to_then()));
    answer
}

/// How a block is hashed once its partition kept up, or dropped it.
fn kept_how(answer: &Upkeep, how: Option<Hashing>) -> Option<Hashing>
    ensures { result ≡ how_then answer.now how }
{
    match answer {
        Upkeep::Kept => how,
        Upkeep::Dropped { .. } => None,
    }
}

/// A frame that is hashed so then, or not at all.
fn hash_as(frame: &mut Frame, how: Option<Hashing>)
    ensures { frame.new ≡ frame_hashed how frame.old }
{
    match how {
        Some(how) => {
            frame.hashed = Some(how.index);
            frame.figures.built = Some(how.params);
        }
        None => {
            frame.hashed = None;
            frame.figures.built = None;
        }
    }
}
