//! Numbers that lanes are drawn by.

/// The next number of a row of 31 bits each, and the state after it.
pub fn draw(state: &mut u64) -> u64 {
    *state = state
        .wrapping_mul(6_364_136_223_846_793_005)
        .wrapping_add(1_442_695_040_888_963_407);
    *state >> 33
}
