// What is due at a station's turn.
ghost use Rattle.std.specs.Prelude.{◌≡◌, ◌<◌, MatchOption};
ghost use Rattle.std.specs.List.{list_any};
ghost use Rattle.closing.specs.Turn.{is_left};
ghost use Rattle.close.specs.Due.{HasAll, DueClaim, AnswerDue};
ghost use Rattle.close.specs.Masks.{Lowest};

use bits::mask::mask_has;
use entry::entry::{Ballot, Stage, Station};
use entry::reading::was_cast;
use event::event::Event;

// Live, claimed, undecided.
pub(crate) fn is_left(t: Station) -> bool
    ensures { result ≡ is_left t }
{
    !t.lost && t.stage.not_idle() && !t.stage.is_decided()
}

// One of these stations is left.
pub(crate) fn some_left(stations: &[Station]) -> bool
    ensures { result ≡ list_any is_left stations.now }
{
    stations.iter().any(|t| is_left(*t))
}

// The lowest station in the mask.
fn lowest(mask: u32) -> Option<u8>
    ensures { Lowest mask result }
{
    if mask == 0 {
        return None;
    }
    Some(u32::trailing_zeros(mask) as u8)
}

// The claimer of the claim that is due to station s, whose entry is `own`, where `hand` are the claims that are to be had.
pub(crate) fn claim_due(own: Station, s: u8, hand: u32) -> Option<u8>
    ensures { MatchOption result (HasAll own s hand) (DueClaim own s hand) }
{
    if !mask_has(own.held, s) {
        return Some(s);
    }
    lowest(hand ^ (hand & own.held))
}

// The answer that a station waits for, where it is missing: t is the entry of its ballot b. The preferred bit if it was cast, else the other one.
pub(crate) fn answer_due(own: Station, b: u8, t: Ballot, preferred: bool) -> Option<Event>
    ensures { AnswerDue own b t preferred result }
{
    let awaits = matches!(own.stage, Stage::Awaiting | Stage::FinishAwaiting);
    if !awaits || t.answered {
        return None;
    }
    let bit = if was_cast(t, preferred) {
        preferred
    } else {
        !preferred
    };
    Some(Event::Answer { b, a: bit as u8 })
}
