//! A frame and its partition: hashed, unhashed, and kept up with a row.
ghost use Rattle.std.specs.Prelude.{◌≡◌, ◌≢◌, Some, length};
ghost use Rattle.index_page.specs.Page.{PageRows};
ghost use Rattle.hash_law.specs.Blocks.{AskFew, HasLeafOf, IsTidy};
ghost use Rattle.hash_upkeep.specs.Build.{BuildsAnew, LacksIfFull};
ghost use Rattle.hash_upkeep.specs.Hashing.{row_entries};
ghost use Rattle.hash_upkeep.specs.Upkeep.{IsRowAnswer, LacksIfDropped, upkeep_of};
ghost use Rattle.forest_law.specs.Hashed.{hash_block};
ghost use Rattle.hash_maintain.specs.Leaves.{CutsFolds, HasRowInFrame, IsExactSo, IsHashedSo, KeepsUpSo};
ghost use Rattle.hash_maintain.specs.Leaves.{frame_built, hashing_of, kept_frame, unhashed, without_row};

use forest_world::Frame;
use hash_partition::Partition;
use hash_upkeep::{
    Build, Hashing, Upkeep, build, drop_block, entries_are_owed, exact_nodes_are_covered,
    on_delete, on_insert,
};
use index_page::{Page, Place};

/// How a block with this frame is hashed, if it is.
pub fn hashing_of(frame: &Frame, block: u32, bits: u8) -> Option<Hashing>
    ensures { result ≡ hashing_of block bits frame.now }
{
    let index = frame.hashed?;
    let params = frame.figures.built?;
    Some(Hashing {
        index,
        block,
        params,
        bits,
    })
}

/// Takes a block's nodes out of its partition: the frame isn't hashed then.
pub fn unhash(part: &mut Partition, frame: &mut Frame, how: &Hashing)
    requires bits { CutsFolds how.now }
    requires hashed { IsHashedSo how.now frame.old }
    requires tidy { IsTidy (hash_block frame.old) }
    requires exact { IsExactSo how.now part.old frame.old }
    ensures frame { frame.new ≡ unhashed frame.old }
    ensures part { KeepsUpSo how.now frame.new part.old part.new }
{
    entries_are_owed();
    exact_nodes_are_covered();
    drop_block(part, leaf_page(frame), how);
    frame.hashed = None;
    frame.figures.built = None;
}

/// Hashes the leaf of a frame anew, which has so many entries, unless it is hashed so: the frame is
/// hashed so then, or where there is no room not at all.
pub fn rehash(part: &mut Partition, frame: &mut Frame, how: &Hashing, need: u32) -> Build
    requires bits { CutsFolds how.now }
    requires tidy { IsTidy (hash_block frame.old) }
    requires leaf { HasLeafOf (hash_block frame.old) how.now.index }
    requires fields { AskFew frame.old.page how.now.params }
    requires exact { IsExactSo how.now part.old frame.old }
    requires need { (page : PageRows) → frame.old.page ≡ Some page
        → need ≡ length (row_entries how.now page.rows) }
    ensures not_needed { frame.old.figures.built ≡ Some how.now.params
        → (result ≡ Build.NotNeeded) × (part.new ≡ part.old) }
    ensures anew { frame.old.figures.built ≢ Some how.now.params → (page : PageRows)
        → frame.old.page ≡ Some page → BuildsAnew how.now page.rows part.old part.new result }
    ensures room { (page : PageRows) → frame.old.page ≡ Some page
        → LacksIfFull result part.new.spare (length (row_entries how.now page.rows)) }
    ensures frame { frame.new ≡ frame_built result how.now frame.old }
    ensures part { KeepsUpSo how.now frame.new part.old part.new }
{
    entries_are_owed();
    let answer = build(part, leaf_page(frame), frame.figures.built, how, need);
    frame.figures.built = answer.built_after(how.params);
    frame.hashed = match frame.figures.built {
        Some(_) => Some(how.index),
        None => None,
    };
    answer
}

/// Keeps up with the row at a place of the frame's leaf, which came. Without it the partition is exact.
pub fn row_came(part: &mut Partition, frame: &mut Frame, place: Place, how: &Hashing) -> Upkeep
    requires bits { CutsFolds how.now }
    requires hashed { IsHashedSo how.now frame.old }
    requires tidy { IsTidy (hash_block frame.old) }
    requires row { HasRowInFrame frame.old place }
    requires exact { IsExactSo how.now part.old (without_row place frame.old) }
    ensures answer { (page : PageRows) → frame.old.page ≡ Some page
        → IsRowAnswer how.now page.rows place
        (λ brought driven. upkeep_of part.old.spare driven brought) result }
    ensures room { (page : PageRows) → frame.old.page ≡ Some page
        → LacksIfDropped result part.new.spare (length (row_entries how.now page.rows)) }
    ensures frame { frame.new ≡ kept_frame result frame.old }
    ensures part { KeepsUpSo how.now frame.new part.old part.new }
{
    entries_are_owed();
    let answer = on_insert(part, leaf_page(frame), place, how);
    unhash_if_dropped(frame, &answer);
    answer
}

/// Keeps up with the row at a place of the frame's leaf, which is about to go. Once it is gone the
/// partition is exact. There is room for that.
pub fn row_goes(part: &mut Partition, frame: &mut Frame, place: Place, how: &Hashing) -> Upkeep
    requires bits { CutsFolds how.now }
    requires hashed { IsHashedSo how.now frame.old }
    requires tidy { IsTidy (hash_block frame.old) }
    requires row { HasRowInFrame frame.old place }
    requires exact { IsExactSo how.now part.old frame.old }
    ensures answer { (page : PageRows) → frame.old.page ≡ Some page
        → IsRowAnswer how.now page.rows place
        (λ brought driven. upkeep_of part.old.spare brought driven) result }
    ensures kept { result ≡ Upkeep.Kept }
    ensures frame { frame.new ≡ kept_frame result frame.old }
    ensures part { KeepsUpSo how.now (without_row place frame.new) part.old part.new }
{
    entries_are_owed();
    let answer = on_delete(part, leaf_page(frame), place, how);
    unhash_if_dropped(frame, &answer);
    answer
}

/// The page of a frame that has one.
pub(crate) fn leaf_page(frame: &Frame) -> &Page
    requires { (page : PageRows) × (frame.now.page ≡ Some page) }
    ensures { frame.now.page ≡ Some result.now }
{
    match &frame.page {
        Some(page) => page,
        None => unreachable!(),
    }
}

/// A frame whose block was dropped isn't hashed.
fn unhash_if_dropped(frame: &mut Frame, answer: &Upkeep)
    ensures { frame.new ≡ kept_frame answer.now frame.old }
{
    if let Upkeep::Dropped { .. } = answer {
        frame.hashed = None;
        frame.figures.built = None;
    }
}
