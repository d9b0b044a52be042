// LOOK s.
ghost use Rattle.std.specs.Prelude.{◌≡◌, if◌then◌else◌};
ghost use Rattle.basics.specs.Refusals.{told};
ghost use Rattle.basics.specs.Tests.{first_met};
ghost use Rattle.entry.specs.Stages.{is_decided};
ghost use Rattle.settlement.specs.Look.{look_tests, votes, looked, standing_told};

use crate::fault::faulty;
use crate::record::{Settlement, Standing};
use basics::refusal::{Refusal, refuse_if};
use bits::logarithm::ceil_log2;
use bits::word::Word;
use entry::entry::{Stage, Station};
use entry::reading::{bit_ballot, finish_ballot, no_station};
use event::place::station_place;

// The votes of a station that stands so, in a record of n stations. An image has n and rule as two bytes, so they are handed apart.
#[tactic(auto, unfolding(crate::specs::Look::votes))]
pub fn votes(n: u8, rule: u8, t: Station) -> usize
    ensures { result ≡ votes n rule t t.stage }
{
    let before = bit_ballot(rule, t.round);
    let finish = finish_ballot(t.round);
    match t.stage {
        Stage::Idle => 0,
        Stage::Waiting => 0,
        Stage::Voting => before,
        Stage::Awaiting => before + 1,
        Stage::Seeking => before + 1,
        Stage::FinishVoting => finish,
        Stage::FinishAwaiting => finish + 1,
        Stage::Decided => if rule == 1 {
            ceil_log2(n) as usize
        } else {
            finish + 1
        },
    }
}

// The claim that a station decided.
pub fn decided(t: Station) -> Option<Word>
    ensures { result ≡ (if is_decided t.stage then Some t.decision else None) }
{
    t.stage.is_decided().then_some(t.decision)
}

#[tactic(auto, unfolding(basics::specs::Tests::first_met))]
fn look_tests(r: &Settlement, s: u8) -> Result<(), Refusal>
    ensures { told result ≡ first_met (look_tests r.now s) }
{
    refuse_if(faulty(r), Refusal::Record)?;
    refuse_if(no_station(r.count, s), Refusal::NoStation)
}

// The claim that station s decided, and its votes.
#[tactic(auto, unfolding(crate::specs::Look::looked), using(basics::proofs::Refusals::some_number, crate::proofs::Places::look_place, crate::proofs::Votes::few_votes))]
pub fn look(r: Settlement, s: u8) -> Result<Standing, Refusal>
    ensures { standing_told result ≡ looked r s }
{
    look_tests(&r, s)?;
    let t = r.stations[station_place(s)];
    Ok(Standing {
        decided: decided(t),
        votes: votes(r.count, r.rule, t) as u8,
    })
}
