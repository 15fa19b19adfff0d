//! What may be said of the pair: one change, and one answer.
use latch_law::Means;

/// The only change: one more.
#[derive(Clone, Copy)]
pub struct One;

/// The only answer: what both numbers add up to.
#[derive(Clone, Copy)]
pub struct Total(pub u64);

impl Means<One> for One {
    ghost meaning = { λ x. x };
}

impl Means<Total> for Total {
    ghost meaning = { λ x. x };
}
