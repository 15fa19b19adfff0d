//! A doer that counts its lines.
use lanes::{Doer, Gate};
use std::sync::Wait;
use std::thread::Threads;

#[derive(Drop)]
pub(crate) struct Teller {
    lane: u32,
    lines: u32,
    told: u32,
}

impl Teller {
    pub(crate) fn new(lane: u32, lines: u32) -> Self {
        Teller {
            lane,
            lines,
            told: 0,
        }
    }

    pub(crate) fn lane(&self) -> u32 {
        self.lane
    }

    pub(crate) fn told(&self) -> u32 {
        self.told
    }
}

impl Doer for Teller {
    ghost use Rattle.std.specs.Prelude.{◌≡◌, ◌+◌, ◌%◌, ◌^◌};

    ghost worked = { λ old new. new ≡ record old { told = (old.told + old.lines) % 2 ^ 32 } };

    fn work<R: Threads + Sync, W: Wait + Sync, G: Gate>(&mut self, _rt: &R, _wait: &W, gate: &G) {
        for line in 0..self.lines {
            gate.before(self.lane, line);
        }
        self.told = self.told.wrapping_add(self.lines);
    }
}
