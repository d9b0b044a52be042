// STEP of a seeking station.
ghost use Rattle.std.specs.Prelude.{◌≡◌};
ghost use Rattle.event.specs.Step.{next_round, entry_after_seek, seeking_ends, sought};

use bits::logarithm::ceil_log2;
use bits::mask::mask_has;
use bits::word::first_difference;
use entry::entry::{Stage, Station};
use entry::reading::spelled;
use event::view::View;

// The round after k, in a byte.
pub(crate) fn next_round(k: u8) -> u8
    ensures { result ≡ next_round k }
{
    ((k as u16 + 1) % 256) as u8
}

// Seeking ends at j.
#[tactic(auto, unfolding(event::specs::Step::entry_after_seek))]
fn entry_after_seek(v: View, j: u8) -> Station
    ensures { result ≡ entry_after_seek v j }
{
    let own = v.own;
    if v.rule != 1 {
        Station {
            stage: Stage::FinishVoting,
            cursor: j,
            ..own
        }
    } else if own.round as u16 + 1 == ceil_log2(v.count) as u16 {
        Station {
            stage: Stage::Decided,
            cursor: j,
            decision: v.beside.claim,
            ..own
        }
    } else {
        Station {
            stage: Stage::Voting,
            cursor: j,
            round: next_round(own.round),
            ..own
        }
    }
}

// Whether seeking ends at j: its claim is held, and none of the compared bits differs.
#[tactic(auto, using(bits::proofs::Difference::some_differs))]
fn seeking_ends(v: View, j: u8) -> bool
    ensures { result ≡ seeking_ends v j }
{
    let own = v.own;
    mask_has(own.held, j)
        && first_difference(own.word, spelled(v.rule, j, v.beside.claim), own.round).is_none()
}

// The cursor is on j, and seeking ends there, or the station goes on seeking.
#[tactic(auto, unfolding(event::specs::Step::sought))]
pub fn sought(v: View, j: u8) -> Station
    ensures { result ≡ sought v j }
{
    if seeking_ends(v, j) {
        entry_after_seek(v, j)
    } else {
        Station {
            stage: Stage::Seeking,
            cursor: j,
            ..v.own
        }
    }
}
