// OPEN n, rule.
ghost use Rattle.std.specs.Prelude.{◌≡◌};
ghost use Rattle.basics.specs.Refusals.{told};
ghost use Rattle.basics.specs.Tests.{first_met};
ghost use Rattle.settlement.specs.Events.{open_tests, fresh, blank, opened};
ghost use Rattle.settlement.specs.Outcome.{outcome_told};

use crate::record::{Outcome, Refused, Settlement};
use basics::refusal::{Refusal, refuse_if};
use entry::entry::{BALLOT_ENTRIES, STATION_ENTRIES, blank_ballot, blank_station};

// n stations under a rule, and every entry as it starts.
fn fresh(n: u8, rule: u8) -> Settlement
    ensures { result ≡ fresh n rule }
{
    Settlement {
        count: n,
        rule,
        stations: [blank_station(); STATION_ENTRIES as usize],
        ballots: [blank_ballot(); BALLOT_ENTRIES],
    }
}

// No stations, rule 1, no ballots.
pub fn blank() -> Settlement
    ensures { result ≡ blank }
{
    fresh(0, 1)
}

#[tactic(auto, unfolding(basics::specs::Tests::first_met))]
fn open_tests(n: u8, rule: u8) -> Result<(), Refusal>
    ensures { told result ≡ first_met (open_tests n rule) }
{
    refuse_if((n == 0) | (STATION_ENTRIES < n), Refusal::Stations)?;
    refuse_if(!((rule == 1) | (rule == 2)), Refusal::Rule)
}

// A settlement of n stations; refused, the blank one.
#[tactic(auto, unfolding(crate::specs::Events::opened, crate::specs::Events::outcome), using(basics::proofs::Refusals::some_number))]
pub fn open(n: u8, rule: u8) -> Outcome
    ensures { outcome_told result ≡ opened n rule }
{
    match open_tests(n, rule) {
        Ok(()) => Ok(fresh(n, rule)),
        Err(why) => Err(Refused {
            why,
            settlement: blank(),
        }),
    }
}
