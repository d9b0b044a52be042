// The lines of the text.
ghost use Rattle.std.specs.Prelude.{◌+◌, ◌≡◌, ◌≤◌, ◌<◌, ◌++◌, length};
ghost use Rattle.settlement.specs.Fault.{fault};
ghost use Rattle.settlement.specs.Look.{looked};
ghost use Rattle.std.specs.Option.{is_some, unwrap_or};
ghost use Rattle.settlement.specs.Record.{entry};
ghost use Rattle.basics.specs.Writers.{Writes};
ghost use Rattle.report.specs.Decimal.{decimal};
ghost use Rattle.report.specs.Text.{first_line, stage_word, decision_shown, presence, station_line};

use crate::progress::Progress;
use crate::writer::put_number;
use basics::writer::Writer;
use bits::word::Word;
use entry::entry::{Stage, Station, blank_station};
use entry::reading::ballot_count;
use settlement::look::{decided, votes};
use settlement::record::{Settlement, Standing};

// A number after its name.
#[tactic(auto, using(basics::proofs::Writers::writes_then))]
fn put_named(w: &mut Writer, name: &[u8], x: usize)
    ensures { Writes (length name.now + 20) (name.now ++ decimal x) w.old w.new }
{
    w.word(name);
    put_number(w, x);
}

fn stage_word(stage: Stage) -> &'static [u8]
    ensures word { result.now ≡ stage_word stage }
    ensures short { length result.now ≤ 8 }
{
    match stage {
        Stage::Idle => b"idle",
        Stage::Waiting => b"waiting",
        Stage::Voting | Stage::FinishVoting => b"voting",
        Stage::Awaiting | Stage::FinishAwaiting => b"awaiting",
        Stage::Seeking => b"seeking",
        Stage::Decided => b"decided",
    }
}

pub(crate) fn put_first_line(w: &mut Writer, r: &Settlement, progress: Progress)
    ensures { Writes 180 (first_line r.now.count r.now.rule progress.events progress.taken progress.status) w.old w.new }
{
    put_named(w, b"stations ", r.count as usize);
    put_named(w, b" rule ", r.rule as usize);
    put_named(w, b" ballots ", ballot_count(r.count, r.rule));
    put_named(w, b" events ", progress.events);
    put_named(w, b" taken ", progress.taken);
    put_named(w, b" status ", progress.status as usize);
    w.byte(b'\n');
}

// The decided claim, or `-`.
#[tactic(auto, unfolding(crate::specs::Text::decision_shown), using(basics::proofs::Writers::writes_at_most))]
fn put_decision(w: &mut Writer, decided: Option<Word>)
    ensures { Writes 20 (decision_shown (is_some decided) (unwrap_or decided 0)) w.old w.new }
{
    match decided {
        Some(claim) => put_number(w, claim as usize),
        None => w.byte(b'-'),
    }
}

#[tactic(auto, unfolding(crate::specs::Text::presence))]
fn put_presence(w: &mut Writer, lost: bool)
    ensures { Writes 5 (presence lost) w.old w.new }
{
    w.word(if lost { b" lost" } else { b" live" });
}

// The entry of station s: past the array a blank one.
fn entry_of(r: &Settlement, s: u8) -> Station
    ensures { result ≡ entry r.now s }
{
    match r.stations.get(s as usize) {
        Some(t) => *t,
        None => blank_station(),
    }
}

// What LOOK shows of station s: it refuses a faulty record, and then shows neither a claim nor votes.
#[tactic(auto, unfolding(settlement::specs::Look::looked, basics::specs::Tests::first_met), using(settlement::proofs::Votes::few_votes))]
fn look_at(r: &Settlement, faulty: bool, s: u8) -> Standing
    requires tested { faulty ≡ fault r.now }
    requires known { s < r.now.count }
    ensures decided { is_some result.decided ≡ (looked r.now s).decided }
    ensures claim { unwrap_or result.decided 0 ≡ (looked r.now s).claim }
    ensures votes { result.votes ≡ (looked r.now s).votes }
{
    if faulty {
        return Standing {
            decided: None,
            votes: 0,
        };
    }
    let t = entry_of(r, s);
    Standing {
        decided: decided(t),
        votes: votes(r.count, r.rule, t) as u8,
    }
}

// The line of station s.
pub(crate) fn put_station_line(w: &mut Writer, r: &Settlement, faulty: bool, s: u8)
    requires tested { faulty ≡ fault r.now }
    requires known { s < r.now.count }
    ensures { Writes 90 (station_line r.now s) w.old w.new }
{
    let t = entry_of(r, s);
    let shown = look_at(r, faulty, s);
    put_number(w, s as usize);
    w.byte(b' ');
    w.word(stage_word(t.stage));
    w.byte(b' ');
    put_decision(w, shown.decided);
    put_named(w, b" votes ", shown.votes as usize);
    put_presence(w, t.lost);
    w.byte(b'\n');
}
