// Where an event looks: its own station, the station beside it, and its ballot; and their places in the arrays.
ghost use Rattle.std.specs.Prelude.{◌≡◌};
ghost use Rattle.event.specs.Meant.{meant};
ghost use Rattle.entry.specs.Entries.{station_entries, ballot_entries};
ghost use Rattle.event.specs.Places.{own_of, next_cursor, step_beside, beside_of, step_ballot, ballot_of, Place};

use crate::event::Event;
use entry::entry::{BALLOT_ENTRIES, STATION_ENTRIES, Stage, Station};
use entry::reading::{bit_ballot, finish_ballot};

// The station whose entry the event changes.
pub fn own_of(e: Event) -> u8
    ensures { result ≡ own_of (meant e) }
{
    match e {
        Event::Claim { s, .. } | Event::Deliver { s, .. } | Event::Step { s } | Event::Lose { s } =>
            s,
        Event::Answer { .. } => 0,
    }
}

// The next station after j, around the n stations. It divides only where j is no station.
pub fn next_cursor(n: u8, j: u8) -> u8
    ensures { result ≡ next_cursor n j }
{
    let next = j as u16 + 1;
    let count = n as u16;
    if next < count {
        next as u8
    } else if next == count || n == 0 {
        0
    } else {
        (next % count) as u8
    }
}

// The station at whose claim a STEP looks.
fn step_beside(n: u8, cursor: u8, stage: Stage) -> u8
    ensures { result ≡ step_beside n cursor stage }
{
    if stage == Stage::Seeking {
        next_cursor(n, cursor)
    } else {
        cursor
    }
}

// The station beside it, where t is the entry of its own.
pub fn beside_of(n: u8, t: Station, e: Event) -> u8
    ensures { result ≡ beside_of n t (meant e) }
{
    match e {
        Event::Claim { s, .. } | Event::Lose { s } => s,
        Event::Deliver { t: from, .. } => from,
        Event::Step { .. } => step_beside(n, t.cursor, t.stage),
        Event::Answer { .. } => 0,
    }
}

// The ballot of a station's round: the one it votes in or awaits.
fn step_ballot(rule: u8, round: u8, stage: Stage) -> usize
    ensures { result ≡ step_ballot rule round stage }
{
    match stage {
        Stage::FinishVoting | Stage::FinishAwaiting => finish_ballot(round),
        Stage::Voting | Stage::Awaiting => bit_ballot(rule, round),
        _ => 0,
    }
}

// The event's ballot, where t is the entry of its own station.
pub fn ballot_of(rule: u8, t: Station, e: Event) -> usize
    ensures { result ≡ ballot_of rule t (meant e) }
{
    match e {
        Event::Claim { .. } | Event::Deliver { .. } | Event::Lose { .. } => 0,
        Event::Step { .. } => step_ballot(rule, t.round, t.stage),
        Event::Answer { b, .. } => b as usize,
    }
}

// The place of station s in its array: past the array there is none, and the first stands for it.
pub fn station_place(s: u8) -> usize
    ensures { Place station_entries s result }
{
    if s < STATION_ENTRIES { s as usize } else { 0 }
}

// The place of ballot b.
pub fn ballot_place(b: usize) -> usize
    ensures { Place ballot_entries b result }
{
    if b < BALLOT_ENTRIES { b } else { 0 }
}
