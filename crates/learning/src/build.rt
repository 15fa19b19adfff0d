//! When a block is worth hashing.
ghost use Rattle.std.specs.Prelude.{◌≡◌, ◌<◌, ℕ};
ghost use Rattle.learning.specs.Bounds.{IsEventOf};
ghost use Rattle.learning.specs.BuildRule.{should_build, is_worth_building};

use crate::event::{BlockFigures, Event};
use crate::info::Info;
use crate::lesson::{learn, learn_block, waits};
use crate::{BUILD_LIMIT, PAGE_BUILD_LIMIT};

/// Whether a build is due after the event, of what the index knew before it.
pub fn should_build(info: &Info, event: &Event) -> bool
    requires room { info.now.events < u32.MAX }
    requires event { (unique : ℕ) × IsEventOf unique event.now }
    ensures { result ≡ should_build info.now event.now }
{
    let Event::Descent(descent) = event else {
        return false;
    };
    if waits(info) {
        return false;
    }
    is_worth(
        &learn(info, event),
        &learn_block(info, descent),
        descent.rows,
    )
}

fn is_worth(info: &Info, block: &BlockFigures, rows: u16) -> bool
    ensures { result ≡ is_worth_building info.now block.now rows }
{
    let differs = block.built != Some(block.advice);
    let rarely = block.helps <= u32::from(rows / PAGE_BUILD_LIMIT);
    if rarely || info.potential < BUILD_LIMIT {
        return false;
    }
    block.built.is_none() || block.helps > 2 * u32::from(rows) || differs
}
