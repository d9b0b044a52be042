// A set of stations as a mask: station s is in it where bit s is 1.
ghost use Rattle.std.specs.Prelude.{◌≡◌};
ghost use Rattle.bits.specs.Words.{member, insert, size};

use crate::word::{Word, bit_at, with_bit};

pub const MASK_BITS: u8 = 32;

// Whether station s is in the mask. A station past the mask's room is not.
#[tactic(auto, unfolding(crate::specs::Words::member))]
pub fn mask_has(mask: u32, s: u8) -> bool
    ensures { result ≡ member s mask }
{
    bit_at(mask as Word, s)
}

// The mask with station s in it. A station past the mask's room changes nothing.
#[tactic(auto, unfolding(crate::specs::Words::insert), using(crate::proofs::Words::word_inside, crate::proofs::Words::word_outside))]
pub fn mask_with(mask: u32, s: u8) -> u32
    ensures { result ≡ insert s mask }
{
    if MASK_BITS <= s {
        return mask;
    }
    with_bit(mask as Word, s, true) as u32
}

// How many stations are in the mask.
pub fn mask_count(mask: u32) -> u8
    ensures { result ≡ size mask }
{
    u32::count_ones(mask) as u8
}
