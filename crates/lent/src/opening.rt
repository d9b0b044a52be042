// OPEN into a lent settlement, and LOOK at a lent one: at a station, and at a ballot.
ghost use Rattle.std.specs.Prelude.{◌≡◌};
ghost use Rattle.basics.specs.Refusals.{told};
ghost use Rattle.settlement.specs.Events.{opened};
ghost use Rattle.settlement.specs.Look.{looked, standing_told};
ghost use Rattle.settlement.specs.Outcome.{leaving, outcome_told};
ghost use Rattle.settlement.specs.Tally.{tallied, tally_told};

use basics::refusal::Refusal;
use settlement::look::look;
use settlement::look_ballot::look_ballot;
use settlement::open::open;
use settlement::record::{Outcome, Settlement, Standing, Tally};

// What OPEN answers, stored: refused, the blank settlement.
// Where the compiler puts this into its caller, it takes the answer apart entry by entry.
#[inline(never)]
fn store_opened(r: &mut Settlement, outcome: &Outcome) -> Result<(), Refusal>
    ensures { leaving (told result) r.new ≡ outcome_told outcome.now }
{
    match outcome {
        Ok(settlement) => {
            *r = *settlement;
            Ok(())
        }
        Err(refused) => {
            *r = refused.settlement;
            Err(refused.why)
        }
    }
}

// OPEN n, rule: whatever stood there is written over.
pub fn open_lent(r: &mut Settlement, n: u8, rule: u8) -> Result<(), Refusal>
    ensures { leaving (told result) r.new ≡ opened n rule }
{
    store_opened(r, &open(n, rule))
}

// LOOK s. The settlement is only read.
pub fn look_lent(r: &Settlement, s: u8) -> Result<Standing, Refusal>
    ensures { standing_told result ≡ looked r.now s }
{
    look(*r, s)
}

// LOOK at ballot b. The settlement is only read.
pub fn look_ballot_lent(r: &Settlement, b: u8) -> Result<Tally, Refusal>
    ensures { tally_told result ≡ tallied r.now b }
{
    look_ballot(*r, b)
}
