// Entries as an event changes them. What an event does not name stays.
ghost use Rattle.std.specs.Prelude.{◌≡◌};
ghost use Rattle.entry.specs.Entries.{claiming, holding, losing, casting, answering};

use crate::entry::{Ballot, Stage, Station};
use bits::mask::mask_with;
use bits::word::Word;

// The claim v put in.
pub fn claiming(t: Station, v: Word) -> Station
    ensures { result ≡ claiming v t }
{
    Station {
        stage: Stage::Waiting,
        claim: v,
        ..t
    }
}

// The claim of station i held.
pub fn holding(t: Station, i: u8) -> Station
    ensures { result ≡ holding i t }
{
    Station {
        held: mask_with(t.held, i),
        ..t
    }
}

pub fn losing(t: Station) -> Station
    ensures { result ≡ losing t }
{
    Station { lost: true, ..t }
}

// Bit a cast by station s.
pub fn casting(t: Ballot, s: u8, a: bool) -> Ballot
    ensures { result ≡ casting s a t }
{
    if a {
        Ballot {
            cast1: mask_with(t.cast1, s),
            ..t
        }
    } else {
        Ballot {
            cast0: mask_with(t.cast0, s),
            ..t
        }
    }
}

// Bit a answered.
pub fn answering(t: Ballot, a: bool) -> Ballot
    ensures { result ≡ answering a t }
{
    Ballot {
        answered: true,
        answer: a,
        ..t
    }
}
