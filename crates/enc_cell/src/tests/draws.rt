//! Numbers that look random and are the same on every machine.

/// The next number, of 24 bits.
pub fn draw(state: &mut u32) -> u32 {
    *state = state.wrapping_mul(1_664_525).wrapping_add(1_013_904_223);
    *state >> 8
}
