// Ballots and bits, by the number of stations and the rule. Both are handed apart, as the definitions under the theorems take them (`ballots`).
ghost use Rattle.std.specs.Prelude.{◌≡◌};
ghost use Rattle.consensus.specs.Rules.{finish_ballot};
ghost use Rattle.entry.specs.Entries.{ballots, no_ballot, bit_ballot, spelled, was_cast, no_station};

use crate::entry::{BALLOT_ENTRIES, Ballot};
use bits::logarithm::ceil_log2;
use bits::word::Word;

pub fn no_station(n: u8, s: u8) -> bool
    ensures { result ≡ no_station n s }
{
    n <= s
}

// How many ballots there are: R by station, two for each bit of a claim by claim, none without stations.
pub fn ballot_count(n: u8, rule: u8) -> usize
    ensures { result ≡ ballots n rule }
{
    if n == 0 {
        0
    } else if rule == 1 {
        ceil_log2(n) as usize
    } else {
        BALLOT_ENTRIES
    }
}

pub fn no_ballot(n: u8, rule: u8, b: u8) -> bool
    ensures { result ≡ no_ballot n rule b }
{
    ballot_count(n, rule) <= b as usize
}

// The ballot that settles bit k.
pub fn bit_ballot(rule: u8, k: u8) -> usize
    ensures { result ≡ bit_ballot rule k }
{
    if rule == 1 {
        k as usize
    } else {
        2 * (k as usize)
    }
}

// The ballot that settles whether to finish after bit k.
pub fn finish_ballot(k: u8) -> usize
    ensures { result ≡ finish_ballot k }
{
    2 * (k as usize) + 1
}

// What the bits of station j are read of: its number by station, its claim by claim.
pub fn spelled(rule: u8, j: u8, claim: Word) -> Word
    ensures { result ≡ spelled rule j claim }
{
    if rule == 1 { j as Word } else { claim }
}

// Whether bit a was cast in the ballot, by anybody: the one place that says so.
pub fn was_cast(t: Ballot, a: bool) -> bool
    ensures { result ≡ was_cast t a }
{
    (if a { t.cast1 } else { t.cast0 }) != 0
}
