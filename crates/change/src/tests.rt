// The tests of each event but STEP and LOSE, in order: the first met gives the refusal.
ghost use Rattle.std.specs.Prelude.{◌≡◌};
ghost use Rattle.basics.specs.Refusals.{told};
ghost use Rattle.basics.specs.Tests.{first_met};
ghost use Rattle.event.specs.Tests.{claim_tests, deliver_tests, answer_tests};

use crate::step::early;
use basics::refusal::{Refusal, refuse_if};
use bits::mask::mask_has;
use entry::reading::{no_ballot, no_station, was_cast};
use event::view::View;

#[tactic(auto, unfolding(basics::specs::Tests::first_met), using(crate::proofs::Early::refused_early, crate::proofs::Early::passed_early))]
pub(crate) fn claim_tests(v: View, s: u8) -> Result<(), Refusal>
    ensures { told result ≡ first_met (claim_tests v s) }
{
    early(v, s)?;
    refuse_if(v.own.stage.not_idle(), Refusal::Claimed)
}

#[tactic(auto, unfolding(basics::specs::Tests::first_met), using(crate::proofs::Early::refuse_or, crate::proofs::Early::refused_early, crate::proofs::Early::passed_early))]
pub(crate) fn deliver_tests(v: View, t: u8, s: u8) -> Result<(), Refusal>
    ensures { told result ≡ first_met (deliver_tests v t s) }
{
    refuse_if(no_station(v.count, t), Refusal::NoStation)?;
    early(v, s)?;
    refuse_if(!v.beside.stage.not_idle(), Refusal::NotClaimed)?;
    refuse_if(mask_has(v.own.held, t), Refusal::Held)
}

#[tactic(auto, unfolding(basics::specs::Tests::first_met))]
pub(crate) fn answer_tests(v: View, b: u8, a: u8) -> Result<(), Refusal>
    ensures { told result ≡ first_met (answer_tests v b a) }
{
    let ballot = v.ballot;
    let yes = a == 1;
    refuse_if(no_ballot(v.count, v.rule, b), Refusal::NoBallot)?;
    refuse_if(1 < a, Refusal::NoBit)?;
    refuse_if(ballot.answered & (ballot.answer != yes), Refusal::Answered)?;
    refuse_if(!ballot.answered & !was_cast(ballot, yes), Refusal::NotCast)
}
