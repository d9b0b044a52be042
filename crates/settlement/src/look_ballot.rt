// LOOK at a ballot (document 02, A.2).
ghost use Rattle.std.specs.Prelude.{◌≡◌};
ghost use Rattle.basics.specs.Refusals.{told};
ghost use Rattle.basics.specs.Tests.{first_met};
ghost use Rattle.settlement.specs.Tally.{tally, tally_tests, tallied, tally_said, tally_told};

use crate::fault::faulty;
use crate::record::{Settlement, Tally};
use basics::refusal::{Refusal, refuse_if};
use bits::mask::mask_count;
use entry::entry::Ballot;
use entry::reading::no_ballot;
use event::place::ballot_place;

// Who voted which way in a ballot with this entry, how many, and its answer if there is one.
#[tactic(auto, unfolding(crate::specs::Tally::tally))]
pub fn tally(t: Ballot) -> Tally
    ensures { tally_said result ≡ tally t }
{
    Tally {
        cast0: t.cast0,
        cast1: t.cast1,
        count0: mask_count(t.cast0),
        count1: mask_count(t.cast1),
        answer: t.answered.then_some(t.answer),
    }
}

#[tactic(auto, unfolding(basics::specs::Tests::first_met))]
fn tally_tests(r: &Settlement, b: u8) -> Result<(), Refusal>
    ensures { told result ≡ first_met (tally_tests r.now b) }
{
    refuse_if(faulty(r), Refusal::Record)?;
    refuse_if(no_ballot(r.count, r.rule, b), Refusal::NoBallot)
}

#[tactic(auto, unfolding(crate::specs::Tally::tallied), using(basics::proofs::Refusals::some_number, crate::proofs::Places::tally_place))]
pub fn look_ballot(r: Settlement, b: u8) -> Result<Tally, Refusal>
    ensures { tally_told result ≡ tallied r b }
{
    tally_tests(&r, b)?;
    Ok(tally(r.ballots[ballot_place(b as usize)]))
}
