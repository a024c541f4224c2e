//! Random operands.

use test_support_samples::Dice;

/// Returns mostly a number below a count, but one in sixteen may name nothing.
pub fn index(dice: &mut Dice, count: u32) -> u32 {
    if count == 0 || dice.hits(16) {
        let number = dice.roll(u64::from(count).saturating_add(2));
        u32::try_from(number).unwrap_or(count)
    } else {
        below(dice, count)
    }
}

/// Returns a number below a count; 0 if that is 0.
pub fn below(dice: &mut Dice, count: u32) -> u32 {
    if count == 0 {
        return 0;
    }
    dice.roll(u64::from(count)) as u32
}

/// Returns a count as a number of 32 bits.
pub fn small(number: usize) -> u32 {
    u32::try_from(number).unwrap_or(u32::MAX)
}
