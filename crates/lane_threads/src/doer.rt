//! A lane before and after it works.
ghost use Rattle.lane_threads.specs.Ready.{IsReady};

use crate::lane::LaneWork;
use index_engine::{Engine, EnginePass};
use map_history::Line;
use std::alloc::Global;

/// A lane that can work: its lines, its pass, its number from 1, and how many indexes there are.
#[derive(Drop)]
pub(crate) struct ReadyLane<'e, 'a> {
    pub(crate) alloc: Global,
    pub(crate) engine: &'e Engine,
    pub(crate) pass: EnginePass,
    pub(crate) lane: u32,
    pub(crate) indexes: usize,
    pub(crate) lines: &'a [Line],
    ghost ready: { ∥ IsReady engine.now lane indexes pass lines.now ∥₁ },
}

/// A lane that has worked: its pass, and what it was told.
#[derive(Drop)]
pub(crate) struct DoneLane<'a> {
    pub(crate) pass: EnginePass,
    pub(crate) work: LaneWork<'a>,
}

/// What goes to a thread: a lane that can work, and then the same lane done, unless memory lacked.
pub(crate) struct LaneDoer<'e, 'a> {
    pub(crate) ready: Option<ReadyLane<'e, 'a>>,
    pub(crate) done: Option<DoneLane<'a>>,
}

// Written out, so that it is dropped by one call.
impl Drop for LaneDoer<'_, '_> {
    fn drop(self) {
        let Self { ready: _, done: _ } = self;
    }
}
