// The entries of a settlement record (document 01, "The settlement").
ghost use Rattle.std.specs.Prelude.{◌≡◌};
ghost use Rattle.entry.specs.Entries.{blank_station, blank_ballot};

use bits::word::{WORD_BITS, Word};

// How many entries a record has: stations, and two ballots for each bit of a claim.
pub const STATION_ENTRIES: u8 = 32;

pub const BALLOT_ENTRIES: usize = 2 * WORD_BITS as usize;

// Where a station stands. The two `Finish` stages are those of the finish ballot.
#[derive(Clone, Copy, Debug, Default, PartialEq, Eq)]
pub enum Stage {
    #[default]
    Idle,
    Waiting,
    Voting,
    Awaiting,
    Seeking,
    FinishVoting,
    FinishAwaiting,
    Decided,
}

// A station is a process; lost is crashed, and a claim is a proposed value.
// `held` is the mask of the stations whose claims it holds; the claims themselves stay in their claimers' entries.
// `cursor`, `round` and `word` are j, k and d of document 01; `decision` is the claim it decided.
#[derive(Clone, Copy, Default)]
pub struct Station {
    pub stage: Stage,
    pub cursor: u8,
    pub round: u8,
    pub lost: bool,
    pub held: u32,
    pub word: Word,
    pub decision: Word,
    pub claim: Word,
}

// A ballot is a binary consensus instance: the masks of the stations that cast 0 and 1 in it, whether it is answered, and the answer.
// No Option: a made-up record may have an answer that is no answer yet, and an image has a byte for each (`RoundTrip` in `image`).
#[derive(Clone, Copy, Default)]
pub struct Ballot {
    pub cast0: u32,
    pub cast1: u32,
    pub answered: bool,
    pub answer: bool,
}

pub fn blank_station() -> Station
    ensures { result ≡ blank_station }
{
    Station::default()
}

pub fn blank_ballot() -> Ballot
    ensures { result ≡ blank_ballot }
{
    Ballot::default()
}
