//! One change of a lane.
use map_history::Line;

/// A change that a lane made: its number in its index, from 1, the lane's number, from 1, and the
/// line that asks for it.
#[derive(Clone, Copy)]
pub struct LaneChange<'a> {
    pub number: u64,
    pub lane: u32,
    pub line: &'a Line,
}
