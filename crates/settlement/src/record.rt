// The settlement record (document 01, "The settlement"), and what is answered about one. Nothing else is kept.
use basics::refusal::Refusal;
use bits::word::Word;
use entry::entry::{BALLOT_ENTRIES, Ballot, STATION_ENTRIES, Station};

// A settlement is one multivalued consensus: n stations, and rule 1 (by station) or 2 (by claim).
#[derive(Clone, Copy)]
pub struct Settlement {
    pub count: u8,
    pub rule: u8,
    pub stations: [Station; STATION_ENTRIES as usize],
    pub ballots: [Ballot; BALLOT_ENTRIES],
}

// A refused event hands back the settlement that it was given, and a refused OPEN the blank one.
#[derive(Clone, Copy)]
pub struct Refused {
    pub why: Refusal,
    pub settlement: Settlement,
}

// What OPEN and the events answer.
pub type Outcome = Result<Settlement, Refused>;

// What LOOK shows: the claim that the station decided, and its votes.
#[derive(Clone, Copy)]
pub struct Standing {
    pub decided: Option<Word>,
    pub votes: u8,
}

// What a look at a ballot shows: the masks of the stations that cast 0 and 1, how many are in each, and the answer.
#[derive(Clone, Copy)]
pub struct Tally {
    pub cast0: u32,
    pub cast1: u32,
    pub count0: u8,
    pub count1: u8,
    pub answer: Option<bool>,
}
