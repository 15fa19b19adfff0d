//! Lane after lane.
ghost use Rattle.std.specs.Prelude.{◌≡◌, [], ◌∷◌, IfOk, map};
ghost use Rattle.std.specs.List.{AllByRecursion};
ghost use Rattle.map_history.specs.Lines.{line_texts};
ghost use Rattle.lane_law.specs.Lines.{AreLinesOf};
ghost use Rattle.gen_runs.specs.Runs.{lanes_drawn};

use generated::generate_lane;
use key_tuple::NoMemory;
use map_history::Line;
use std::alloc::Global;

/// The lines of so many lanes, so many of each, for a number. All ask one index, whose keys have one
/// field.
pub fn generate_lanes(
    alloc: Global,
    number: u32,
    lanes: u32,
    lines: u32,
) -> Result<Vec<Vec<Line>>, NoMemory>
    ensures drawn { IfOk result (λ made.
        map (λ lane. line_texts lane.items) made.items ≡ lanes_drawn number lanes lines) }
    ensures lines { IfOk result (λ made.
        AllByRecursion (λ lane. AreLinesOf (1 ∷ []) lane.items) made.items) }
{
    let mut made = Vec::with_capacity(alloc, lanes as usize)?;
    for before in 0..lanes {
        made.push_reserved(generate_lane(alloc, number, before + 1, lines)?);
    }
    Ok(made)
}
