// The five events by name: document 01 and the contracts name each.
ghost use Rattle.std.specs.Prelude.{◌≡◌};
ghost use Rattle.consensus.specs.Events.{claim, deliver, step, lose, answer};
ghost use Rattle.settlement.specs.Events.{played};
ghost use Rattle.settlement.specs.Outcome.{outcome_told};

use crate::play::play;
use crate::record::{Outcome, Settlement};
use bits::word::Word;
use event::event::Event;

// CLAIM s, v: station s puts in the claim v.
pub fn claim(r: Settlement, s: u8, v: Word) -> Outcome
    ensures { outcome_told result ≡ played r (claim s v) }
{
    play(r, Event::Claim { s, v })
}

// DELIVER t, s: the claim of station t reaches station s.
pub fn deliver(r: Settlement, t: u8, s: u8) -> Outcome
    ensures { outcome_told result ≡ played r (deliver t s) }
{
    play(r, Event::Deliver { t, s })
}

// STEP s: station s takes its next step.
pub fn step(r: Settlement, s: u8) -> Outcome
    ensures { outcome_told result ≡ played r (step s) }
{
    play(r, Event::Step { s })
}

// LOSE s: station s is lost, and keeps its stage and decision.
pub fn lose(r: Settlement, s: u8) -> Outcome
    ensures { outcome_told result ≡ played r (lose s) }
{
    play(r, Event::Lose { s })
}

// ANSWER b, a: ballot b is answered with the bit a.
pub fn answer(r: Settlement, b: u8, a: u8) -> Outcome
    ensures { outcome_told result ≡ played r (answer b a) }
{
    play(r, Event::Answer { b, a })
}
