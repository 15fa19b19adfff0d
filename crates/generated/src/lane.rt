//! The lines of a lane.
ghost use Rattle.std.specs.Prelude.{◌≡◌, IfOk};
ghost use Rattle.map_history.specs.Lines.{line_texts};
ghost use Rattle.gen_law.specs.Drawing.{lane_lines};

use crate::drawing::{line_drawn, next_state};
use key_tuple::NoMemory;
use map_history::Line;
use std::alloc::Global;

/// The first lines of a lane, so many, for a number. Lanes are counted from 1.
pub fn generate_lane(
    alloc: Global,
    number: u32,
    lane: u32,
    lines: u32,
) -> Result<Vec<Line>, NoMemory>
    ensures { IfOk result (λ made. line_texts made.items ≡ lane_lines number lane lines) }
{
    let mut made = Vec::with_capacity(alloc, lines as usize)?;
    let mut state = u64::from(number) + u64::from(lane);
    for before in 0..lines {
        state = next_state(state);
        made.push_reserved(line_drawn(alloc, lane, before + 1, state)?);
    }
    Ok(made)
}
