// One event, whichever it is: the record test, and then the event on the entries that it looks at.
ghost use Rattle.std.specs.Prelude.{◌≡◌};
ghost use Rattle.consensus.specs.Events.{step};
ghost use Rattle.entry.specs.declared.entry.Stage.TheVariants.{Seeking};
ghost use Rattle.entry.specs.Entries.{station_entries};
ghost use Rattle.event.specs.Places.{within};
ghost use Rattle.settlement.specs.Record.{entry};
ghost use Rattle.basics.specs.Refusals.{told};
ghost use Rattle.event.specs.Meant.{meant};
ghost use Rattle.settlement.specs.Events.{played};
ghost use Rattle.settlement.specs.InPlace.{advanced};
ghost use Rattle.settlement.specs.Outcome.{leaving, outcome_told};

use crate::fault::faulty;
use crate::record::{Outcome, Refused, Settlement};
use basics::refusal::Refusal;
use change::change::change_of;
use change::seek::sought;
use change::step::early;
use entry::entry::Stage;
use event::event::Event;
use event::place::{ballot_of, ballot_place, beside_of, next_cursor, own_of, station_place};
use event::view::View;

// STEP s of a seeking station. It asks no ballot, so the first one stands for it; it is most of a log's events, and on the way of all events
// the compiler keeps both entries and the ballot in memory and stores what has not changed.
#[tactic(auto, unfolding(crate::specs::Events::outcome), using(basics::proofs::Refusals::some_number, crate::proofs::Seek::seek_advanced))]
fn seek(r: &mut Settlement, s: u8) -> Result<(), Refusal>
    requires { (entry r.old (within station_entries s)).stage ≡ Seeking }
    ensures { leaving (told result) r.new ≡ advanced r.old (step s) }
{
    let i = station_place(s);
    let own = r.stations[i];
    let cursor = next_cursor(r.count, own.cursor);
    let j = station_place(cursor);
    let v = View {
        count: r.count,
        rule: r.rule,
        own,
        beside: r.stations[j],
        ballot: r.ballots[0],
    };
    early(v, s)?;
    r.stations[i] = sought(v, cursor);
    Ok(())
}

// Any event, on the entries that it looks at.
#[tactic(auto, unfolding(crate::specs::InPlace::advanced, crate::specs::Events::outcome), using(basics::proofs::Refusals::some_number))]
fn change_there(r: &mut Settlement, e: Event) -> Result<(), Refusal>
    ensures { leaving (told result) r.new ≡ advanced r.old (meant e) }
{
    let i = station_place(own_of(e));
    let own = r.stations[i];
    let j = station_place(beside_of(r.count, own, e));
    let k = ballot_place(ballot_of(r.rule, own, e));
    let v = View {
        count: r.count,
        rule: r.rule,
        own,
        beside: r.stations[j],
        ballot: r.ballots[k],
    };
    let change = change_of(v, e)?;
    r.stations[i] = change.own;
    r.ballots[k] = change.ballot;
    Ok(())
}

// The event where the settlement stands, without the record test. Beside CLOSE in one archive RUN would not have it in its loop.
#[inline(always)]
pub fn advance(r: &mut Settlement, e: Event) -> Result<(), Refusal>
    ensures { leaving (told result) r.new ≡ advanced r.old (meant e) }
{
    match e {
        Event::Step { s } if r.stations[station_place(s)].stage == Stage::Seeking => seek(r, s),
        _ => change_there(r, e),
    }
}

// The event by value. Where the compiler puts this into its caller, it takes the answer apart entry by entry.
#[tactic(auto, unfolding(crate::specs::InPlace::advanced, crate::specs::Events::outcome), using(basics::proofs::Refusals::some_number, crate::proofs::Places::played_in_place, crate::proofs::Places::played_faulty))]
#[inline(never)]
pub fn play(mut r: Settlement, e: Event) -> Outcome
    ensures { outcome_told result ≡ played r (meant e) }
{
    if faulty(&r) {
        return Err(Refused {
            why: Refusal::Record,
            settlement: r,
        });
    }
    match advance(&mut r, e) {
        Ok(()) => Ok(r),
        Err(why) => Err(Refused { why, settlement: r }),
    }
}
