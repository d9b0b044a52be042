// STEP: its tests, and what it makes of the station's entry and of the ballot's.
ghost use Rattle.std.specs.Prelude.{◌≡◌, not, ◌&&◌, eqb};
ghost use Rattle.basics.specs.Refusals.{told};
ghost use Rattle.basics.specs.Tests.{refuse};
ghost use Rattle.consensus.specs.Events.{step};
ghost use Rattle.consensus.specs.Rules.{finish_ballot};
ghost use Rattle.entry.specs.Entries.{no_station, casting};
ghost use Rattle.event.specs.Tests.{last_ballot};
ghost use Rattle.event.specs.Step.{started, staged, bit_taken, finish_taken, bit_voted};
ghost use Rattle.event.specs.Change.{change_of, Tells};

use crate::seek::{next_round, sought};
use basics::refusal::{Refusal, refuse_if};
use bits::mask::mask_has;
use bits::word::{bit_at, with_bit};
use entry::changed::casting;
use entry::entry::{BALLOT_ENTRIES, Stage, Station};
use entry::reading::{finish_ballot, no_station, spelled};
use event::change::Change;
use event::place::next_cursor;
use event::view::View;

// The first step: the cursor on the station itself. A lone station by station decides at once.
#[tactic(auto, unfolding(event::specs::Step::started))]
fn started(v: View, s: u8) -> Station
    ensures { result ≡ started v s }
{
    let own = v.own;
    if (v.rule == 1) & (v.count == 1) {
        Station {
            stage: Stage::Decided,
            cursor: s,
            decision: own.claim,
            ..own
        }
    } else {
        Station {
            stage: Stage::Voting,
            cursor: s,
            ..own
        }
    }
}

// A bit answer becomes bit k of the word.
#[tactic(auto, unfolding(event::specs::Step::bit_taken))]
fn bit_taken(v: View) -> Station
    ensures { result ≡ bit_taken v }
{
    let own = v.own;
    Station {
        stage: Stage::Seeking,
        word: with_bit(own.word, own.round, v.ballot.answer),
        ..own
    }
}

// A finish answer 1 decides the word, and 0 begins the next round.
#[tactic(auto, unfolding(event::specs::Step::finish_taken))]
fn finish_taken(v: View) -> Station
    ensures { result ≡ finish_taken v }
{
    let own = v.own;
    if v.ballot.answer {
        Station {
            stage: Stage::Decided,
            decision: own.word,
            ..own
        }
    } else {
        Station {
            stage: Stage::Voting,
            round: next_round(own.round),
            ..own
        }
    }
}

// Which bit a vote in the bit ballot casts: bit k of what the cursor's bits are read of.
fn bit_voted(v: View) -> bool
    ensures { result ≡ bit_voted v }
{
    let own = v.own;
    bit_at(spelled(v.rule, own.cursor, v.beside.claim), own.round)
}

// The tests before the stage's own: no such station, and lost. They are LOSE's, whole.
pub fn early(v: View, s: u8) -> Result<(), Refusal>
    ensures { told result ≡ refuse (no_station v.count s) 1 (refuse v.own.lost 2 0) }
{
    refuse_if(no_station(v.count, s), Refusal::NoStation)?;
    refuse_if(v.own.lost, Refusal::Lost)
}

// The finish ballot's: unanswered, and answer 0 from the last one.
fn unfinished(v: View) -> Result<(), Refusal>
    ensures { told result ≡ refuse (not v.ballot.answered) 8 (refuse (not v.ballot.answer && eqb (finish_ballot v.own.round) last_ballot) 42 0) }
{
    let last = finish_ballot(v.own.round) == BALLOT_ENTRIES - 1;
    refuse_if(!v.ballot.answered, Refusal::Waits)?;
    refuse_if(!v.ballot.answer & last, Refusal::Record)
}

// The station's entry is new, and the ballot's as it was.
fn stays(v: View, own: Station) -> Change
    ensures { result ≡ record { own = own; ballot = v.ballot } }
{
    Change {
        own,
        ballot: v.ballot,
    }
}

// Station s casts the bit a, and goes to the stage g.
fn casts(v: View, s: u8, g: Stage, a: bool) -> Change
    ensures { result ≡ record { own = staged g v.own; ballot = casting s a v.ballot } }
{
    Change {
        own: Station { stage: g, ..v.own },
        ballot: casting(v.ballot, s, a),
    }
}

// STEP s, whole, stage by stage.
#[tactic(auto, unfolding(basics::specs::Tests::first_met, event::specs::Change::own_after, event::specs::Change::ballot_after, event::specs::Step::stepped, event::specs::Step::voted), using(crate::proofs::Early::refused_early, crate::proofs::Early::passed_early))]
pub(crate) fn step_change(v: View, s: u8) -> Result<Change, Refusal>
    ensures { Tells result (change_of v (step s)) }
{
    early(v, s)?;
    let t = v.own;
    match t.stage {
        Stage::Idle => Err(Refusal::Idle),
        Stage::Waiting => {
            refuse_if(!mask_has(t.held, s), Refusal::Waits)?;
            Ok(stays(v, started(v, s)))
        }
        Stage::Voting => Ok(casts(v, s, Stage::Awaiting, bit_voted(v))),
        Stage::Awaiting => {
            refuse_if(!v.ballot.answered, Refusal::Waits)?;
            Ok(stays(v, bit_taken(v)))
        }
        Stage::Seeking => Ok(stays(v, sought(v, next_cursor(v.count, t.cursor)))),
        Stage::FinishVoting => Ok(casts(v, s, Stage::FinishAwaiting, t.word == v.beside.claim)),
        Stage::FinishAwaiting => {
            unfinished(v)?;
            Ok(stays(v, finish_taken(v)))
        }
        Stage::Decided => Err(Refusal::Decided),
    }
}
