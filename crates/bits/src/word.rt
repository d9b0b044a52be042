// A claim as a word: its length, one bit of it, one bit changed, and two words compared.
ghost use Rattle.std.specs.Prelude.{◌≡◌};
ghost use Rattle.bits.specs.Digits.{bit, bit_length};
ghost use Rattle.bits.specs.Difference.{first_difference};
ghost use Rattle.bits.specs.Words.{claim_bits, word_with_bit};

// The word that holds a claim. Its width is said here and, for the proofs, by `claim_bits` of specs/Words.antt.
pub type Word = u32;

pub const WORD_BITS: u8 = 32;

// How many binary digits x has, and 1 for 0.
pub fn bit_length(x: Word) -> u8
    ensures { result ≡ bit_length x }
{
    (WORD_BITS - u32::leading_zeros(x) as u8).max(1)
}

// Bit k of x. A word has no bit at or past its width: there it is 0.
pub fn bit_at(x: Word, k: u8) -> bool
    ensures { result ≡ bit k x }
{
    k < WORD_BITS && (x >> k) % 2 == 1
}

// x with bit k made b. At or past the width nothing changes.
pub fn with_bit(x: Word, k: u8, b: bool) -> Word
    ensures { result ≡ word_with_bit claim_bits k b x }
{
    if WORD_BITS <= k {
        return x;
    }
    let old = bit_at(x, k) as Word;
    let new = b as Word;
    x - (old << k) + (new << k)
}

// The first of the low k + 1 bits at which a and b differ: bit k comes first, then those below it, from bit 0 up. Where the word has no
// bit k, all its bits are compared, from bit 0 up.
// A shift moves bit k to the top and the bits above it out. So "bit k differs" is the shifted word's top bit, and the machine has one test for
// that and for "nothing differs".
pub fn first_difference(a: Word, b: Word, k: u8) -> Option<u8>
    ensures { result ≡ first_difference k a b }
{
    let differing = a ^ b;
    let lowest = u32::trailing_zeros(differing) as u8;
    if WORD_BITS <= k {
        return (differing != 0).then_some(lowest);
    }
    let compared = differing << (WORD_BITS - 1 - k);
    if bit_at(compared, WORD_BITS - 1) {
        return Some(k);
    }
    (compared != 0).then_some(lowest)
}
