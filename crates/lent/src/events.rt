// The five events on a lent settlement. Each calls the event by value, stores the settlement that it answers, and answers the refusal.
// Document 01 names this form, and the entries one by one.
// Where the compiler puts an entry into its caller, it takes the answer apart entry by entry.
ghost use Rattle.std.specs.Prelude.{◌≡◌, IfErr};
ghost use Rattle.basics.specs.Refusals.{told};
ghost use Rattle.consensus.specs.Events.{claim, deliver, step, lose, answer};
ghost use Rattle.event.specs.Meant.{meant};
ghost use Rattle.settlement.specs.Events.{played};
ghost use Rattle.settlement.specs.Outcome.{leaving, outcome_told};

use basics::refusal::Refusal;
use bits::word::Word;
use event::event::Event;
use settlement::events::{answer, claim, deliver, lose, step};
use settlement::record::{Outcome, Settlement};

// What an event by value answers, stored: a refused one hands back the very settlement that it was given, which stands there.
fn store(r: &mut Settlement, outcome: &Outcome) -> Result<(), Refusal>
    requires { IfErr outcome.now (λ refused. refused.settlement ≡ r.old) }
    ensures { leaving (told result) r.new ≡ outcome_told outcome.now }
{
    match outcome {
        Ok(settlement) => {
            *r = *settlement;
            Ok(())
        }
        Err(refused) => Err(refused.why),
    }
}

// CLAIM s, v.
#[inline(never)]
pub fn claim_lent(r: &mut Settlement, s: u8, v: Word) -> Result<(), Refusal>
    ensures { leaving (told result) r.new ≡ played r.old (claim s v) }
{
    store(r, &claim(*r, s, v))
}

// DELIVER t, s.
#[inline(never)]
pub fn deliver_lent(r: &mut Settlement, t: u8, s: u8) -> Result<(), Refusal>
    ensures { leaving (told result) r.new ≡ played r.old (deliver t s) }
{
    store(r, &deliver(*r, t, s))
}

// STEP s.
#[inline(never)]
pub fn step_lent(r: &mut Settlement, s: u8) -> Result<(), Refusal>
    ensures { leaving (told result) r.new ≡ played r.old (step s) }
{
    store(r, &step(*r, s))
}

// LOSE s.
#[inline(never)]
pub fn lose_lent(r: &mut Settlement, s: u8) -> Result<(), Refusal>
    ensures { leaving (told result) r.new ≡ played r.old (lose s) }
{
    store(r, &lose(*r, s))
}

// ANSWER b, a.
#[inline(never)]
pub fn answer_lent(r: &mut Settlement, b: u8, a: u8) -> Result<(), Refusal>
    ensures { leaving (told result) r.new ≡ played r.old (answer b a) }
{
    store(r, &answer(*r, b, a))
}

// One event, whichever it is, by the entry of its name.
pub fn play_lent(r: &mut Settlement, e: Event) -> Result<(), Refusal>
    ensures { leaving (told result) r.new ≡ played r.old (meant e) }
{
    match e {
        Event::Claim { s, v } => claim_lent(r, s, v),
        Event::Deliver { t, s } => deliver_lent(r, t, s),
        Event::Step { s } => step_lent(r, s),
        Event::Lose { s } => lose_lent(r, s),
        Event::Answer { b, a } => answer_lent(r, b, a),
    }
}
