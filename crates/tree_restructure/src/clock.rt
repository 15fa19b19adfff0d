//! Clocks of frames.
ghost use Rattle.std.specs.Prelude.{◌≡◌};
ghost use Rattle.clock_law.specs.ModifyClock.{ClockRises};

use forest_law::Frame;

/// Raises the clock of a frame that loses rows, or gets them.
pub fn rise(frame: &mut Frame)
    ensures rises { ClockRises frame.old.clock frame.new.clock }
    ensures kept { frame.new ≡ record frame.old { clock = frame.new.clock } }
{
    let _before = frame.clock;
    frame.raise_clock();
}
