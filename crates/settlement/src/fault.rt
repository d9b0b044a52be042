// The record test, which gives 42.
ghost use Rattle.std.specs.Prelude.{◌≡◌, ◌≤◌};
ghost use Rattle.basics.specs.Below.{any_below};
ghost use Rattle.entry.specs.Entries.{station_entries};
ghost use Rattle.settlement.specs.Fault.{station_fault, fault_at, fault};

use crate::record::Settlement;
use bits::logarithm::ceil_log2;
use bits::word::WORD_BITS;
use entry::entry::{STATION_ENTRIES, Station};

// One station's test, in a record of n stations. An image has n and rule as two bytes: a struct of both would only be made to be passed.
#[tactic(auto, unfolding(crate::specs::Fault::station_fault))]
pub fn station_faulty(n: u8, rule: u8, t: Station) -> bool
    ensures { result ≡ station_fault n rule t }
{
    (n <= t.cursor)
        | (rule == 1) & t.stage.in_round() & (ceil_log2(n) <= t.round)
        | (rule == 1) & t.stage.on_finish()
        | (rule == 2) & t.stage.past_waiting() & (WORD_BITS <= t.round)
}

// Whether a station below n has a fault. All are asked, with no way out before the last: so the compiler asks several at once.
fn some_station_faulty(r: &Settlement) -> bool
    requires { r.now.count ≤ station_entries }
    ensures { result ≡ any_below r.now.count (fault_at r.now) }
{
    let mut found = false;
    for t in &r.stations[..r.count as usize] {
        found |= station_faulty(r.count, r.rule, *t);
    }
    found
}

#[tactic(auto, unfolding(crate::specs::Fault::fault))]
pub fn faulty(r: &Settlement) -> bool
    ensures { result ≡ fault r.now }
{
    if STATION_ENTRIES < r.count {
        return true;
    }
    !((r.rule == 1) | (r.rule == 2)) | some_station_faulty(r)
}
