// LOOK at all stations of an image at once.
ghost use Rattle.std.specs.Prelude.{◌*◌, ◌≡◌, IfOk};
ghost use Rattle.basics.specs.Refusals.{told};
ghost use Rattle.image.specs.Image.{record_in};
ghost use Rattle.on_image.specs.Look.{all_number, all_after};

use crate::fault::sound_image;
use crate::look::{standing_at, standing_bytes};
use basics::refusal::{Refusal, refuse_if};
use basics::writer::Writer;

// Eight bytes for each station from the start of the buffer. The bytes written.
#[tactic(auto, using(basics::proofs::Refusals::some_number, crate::proofs::Looks::all_turned, crate::proofs::Looks::all_left, crate::proofs::Looks::all_stays, crate::proofs::Looks::all_there, crate::proofs::Looks::standings_long, image::proofs::Image::count_in))]
pub fn look_all(bytes: &[u8], out: &mut [u8]) -> Result<usize, Refusal>
    ensures refused { told result ≡ all_number bytes.now out.old }
    ensures count { IfOk result (λ n. n ≡ 8 * (record_in bytes.now).count) }
    ensures out_after { out.new ≡ all_after bytes.now out.old }
{
    let image = sound_image(bytes)?;
    refuse_if(out.len() < 8 * image[1] as usize, Refusal::NoRoom)?;
    let mut w = Writer { out, at: 0 };
    for s in 0..image[1] {
        w.word(&standing_bytes(Ok(standing_at(image, s))));
    }
    Ok(w.at)
}
