// The bound on supplied steps, and the claims at hand, as a settlement has them at the start.
ghost use Rattle.std.specs.Prelude.{◌≤◌, ◌≡◌, cond};
ghost use Rattle.bits.specs.Digits.{bit_length};
ghost use Rattle.entry.specs.Stages.{not_idle};
ghost use Rattle.entry.specs.Entries.{station_entries};
ghost use Rattle.close.specs.Masks.{Hand};
ghost use Rattle.closing.specs.Closing.{longest_put, step_bound};

use bits::logarithm::ceil_log2;
use bits::mask::mask_with;
use bits::word::bit_length;
use entry::entry::Station;
use settlement::record::Settlement;

// The length of the claim that a station put in, and 0 where there is none.
fn put_length(t: Station) -> u8
    ensures value { result ≡ cond (not_idle t.stage) (bit_length t.claim) 0 }
    ensures upper_bound { result ≤ 32 }
{
    if t.stage.not_idle() {
        bit_length(t.claim)
    } else {
        0
    }
}

// K.
#[tactic(auto, unfolding(closing::specs::Closing::greatest_below))]
fn longest_put(r: &Settlement) -> u8
    requires { r.now.count ≤ station_entries }
    ensures value { result ≡ longest_put r.now }
    ensures upper_bound { result ≤ 32 }
{
    let mut most = 0;
    for t in &r.stations[..r.count as usize] {
        most = most.max(put_length(*t));
    }
    most
}

#[tactic(auto, unfolding(closing::specs::Closing::step_bound), using(closing::proofs::SameBound::small, closing::proofs::SameBound::rounds_few))]
pub(crate) fn step_bound(r: &Settlement) -> usize
    requires { r.now.count ≤ station_entries }
    ensures value { result ≡ step_bound r.now }
    ensures upper_bound { result ≤ 1153 }
{
    let n = r.count as usize;
    if r.rule == 1 {
        return 1 + ceil_log2(r.count) as usize * (n + 2);
    }
    1 + longest_put(r) as usize * (n + 4)
}

// The claims that are put in and that some station holds.
pub(crate) fn claims_at_hand(r: &Settlement) -> u32
    requires { r.now.count ≤ station_entries }
    ensures { Hand r.now result }
{
    let mut held = 0;
    let mut claimed = 0;
    for (s, t) in r.stations[..r.count as usize].iter().enumerate() {
        held |= t.held;
        if t.stage.not_idle() {
            claimed = mask_with(claimed, s as u8);
        }
    }
    held & claimed
}
