// One event, whole, on the entries that it looks at.
ghost use Rattle.event.specs.Meant.{meant};
ghost use Rattle.event.specs.Change.{change_of, Tells};

use crate::step::{early, step_change};
use crate::tests::{answer_tests, claim_tests, deliver_tests};
use basics::refusal::Refusal;
use entry::changed::{answering, claiming, holding, losing};
use event::change::Change;
use event::event::Event;
use event::view::View;

#[tactic(auto, unfolding(basics::specs::Tests::first_met, event::specs::Change::own_after, event::specs::Change::ballot_after))]
pub fn change_of(v: View, e: Event) -> Result<Change, Refusal>
    ensures { Tells result (change_of v (meant e)) }
{
    let own = v.own;
    let ballot = v.ballot;
    match e {
        Event::Claim { s, v: claim } => {
            claim_tests(v, s)?;
            let own = claiming(own, claim);
            Ok(Change { own, ballot })
        }
        Event::Deliver { t, s } => {
            deliver_tests(v, t, s)?;
            let own = holding(own, t);
            Ok(Change { own, ballot })
        }
        Event::Step { s } => step_change(v, s),
        Event::Lose { s } => {
            early(v, s)?;
            let own = losing(own);
            Ok(Change { own, ballot })
        }
        Event::Answer { b, a } => {
            answer_tests(v, b, a)?;
            let ballot = answering(ballot, a == 1);
            Ok(Change { own, ballot })
        }
    }
}
