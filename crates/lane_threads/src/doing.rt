//! How a lane works.
ghost use Rattle.std.specs.Prelude.{IfSome};
ghost use Rattle.lane_threads.specs.Doing.{DoesLane, WorkedOnce};

use crate::doer::{DoneLane, LaneDoer, ReadyLane};
use crate::lane::work_lane;
use lanes::{Doer, Gate};
use std::sync::Wait;
use std::thread::Threads;

impl<'e, 'a> ReadyLane<'e, 'a> {
    /// Works all lines. Where memory lacked, the pass is gone, and its number with it.
    fn work<W: Wait, G: Gate>(self, wait: &W, gate: &G) -> Option<DoneLane<'a>>
        ensures { IfSome result (DoesLane self.entry) }
    {
        let ReadyLane {
            alloc,
            engine,
            mut pass,
            lane,
            indexes,
            lines,
        } = self;
        let Ok(work) = work_lane(alloc, engine, &mut pass, lane, indexes, lines, wait, gate) else {
            return None;
        };
        Some(DoneLane { pass, work })
    }
}

impl Doer for LaneDoer<'_, '_> {
    ghost worked = { WorkedOnce };

    fn work<R: Threads + Sync, W: Wait + Sync, G: Gate>(&mut self, _rt: &R, wait: &W, gate: &G) {
        if let Some(lane) = self.ready.take() {
            self.done = lane.work(wait, gate);
        }
    }
}
