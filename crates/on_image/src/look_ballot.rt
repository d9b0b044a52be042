// LOOK at a ballot of an image.
ghost use Rattle.std.specs.Prelude.{◌≡◌, IfOk};
ghost use Rattle.basics.specs.Refusals.{told};
ghost use Rattle.basics.specs.Writers.{Writes};
ghost use Rattle.settlement.specs.Tally.{tally_said};
ghost use Rattle.on_image.specs.Tally.{tally_bytes, tally_number, tally_after};

use crate::fault::sound_image;
use crate::place::ballot_in;
use basics::refusal::{Refusal, refuse_if};
use basics::writer::Writer;
use entry::reading::no_ballot;
use settlement::look_ballot::tally;
use settlement::record::Tally;

// The bytes that a look writes.
const TALLY_BYTES: usize = 12;

// What a look shows.
fn put_tally(w: &mut Writer, t: Tally)
    ensures { Writes 12 (tally_bytes (tally_said t)) w.old w.new }
{
    w.four(t.cast0);
    w.four(t.cast1);
    w.byte(t.count0);
    w.byte(t.count1);
    w.byte(u8::from(t.answer.is_some()));
    w.byte(u8::from(t.answer.unwrap_or(false)));
}

// 12 bytes from the start of the buffer. The bytes written.
#[tactic(auto, using(basics::proofs::Refusals::some_number, crate::proofs::Tallies::tally_turned, crate::proofs::Tallies::tally_none, crate::proofs::Tallies::tally_left, crate::proofs::Tallies::tally_stays, crate::proofs::Tallies::tally_there, crate::proofs::Tallies::twelve))]
pub fn look_ballot_on(bytes: &[u8], b: u8, out: &mut [u8]) -> Result<usize, Refusal>
    ensures refused { told result ≡ tally_number bytes.now b out.old }
    ensures count { IfOk result (λ n. n ≡ 12) }
    ensures out_after { out.new ≡ tally_after bytes.now b out.old }
{
    let image = sound_image(bytes)?;
    refuse_if(no_ballot(image[1], image[2], b), Refusal::NoBallot)?;
    refuse_if(out.len() < TALLY_BYTES, Refusal::NoRoom)?;
    let mut w = Writer { out, at: 0 };
    put_tally(&mut w, tally(ballot_in(image, b as usize)));
    Ok(w.at)
}
