//! What a lane asks before each of its lines.

/// Called by a lane before each of its lines. All lanes share it, and a lane waits for as long as
/// the call does. It promises nothing.
pub trait Gate {
    fn before(&self, lane: u32, line: u32);
}

/// Lets each line pass at once.
#[derive(Clone, Copy)]
pub struct NoGate;

impl Gate for NoGate {
    fn before(&self, _lane: u32, _line: u32) {}
}
