// LOOK at one station of an image.
ghost use Rattle.std.specs.Prelude.{◌≡◌, Ok};
ghost use Rattle.basics.specs.Tests.{first_met};
ghost use Rattle.settlement.specs.Look.{look_tests, looked, standing_told};
ghost use Rattle.image.specs.Image.{record_in};
ghost use Rattle.on_image.specs.Look.{looked_on, standing_bytes};

use crate::fault::sound_image;
use crate::place::station_in;
use basics::refusal::{Refusal, refuse_if};
use entry::reading::no_station;
use image::layout::Image;
use settlement::look::{decided, votes};
use settlement::record::Standing;

// LOOK's answer where nothing is refused.
pub(crate) fn standing_at(image: &Image, s: u8) -> Standing
    requires { first_met (look_tests (record_in image.now) s) ≡ 0 }
    ensures { standing_told (Ok result) ≡ looked (record_in image.now) s }
{
    let t = station_in(image, s as usize);
    Standing {
        decided: decided(t),
        votes: votes(image[1], image[2], t) as u8,
    }
}

// The claim that station s decided, and its votes.
pub fn look_on(bytes: &[u8], s: u8) -> Result<Standing, Refusal>
    ensures { standing_told result ≡ looked_on bytes.now s }
{
    let image = sound_image(bytes)?;
    refuse_if(no_station(image[1], s), Refusal::NoStation)?;
    Ok(standing_at(image, s))
}

// LOOK's answer in eight bytes.
#[tactic(auto, unfolding(crate::specs::Look::standing_bytes))]
pub fn standing_bytes(answer: Result<Standing, Refusal>) -> [u8; 8]
    ensures { result ≡ standing_bytes (standing_told answer) }
{
    match answer {
        Ok(t) => {
            let [x, y, z, w] = t.decided.unwrap_or(0).to_be_bytes();
            [0, u8::from(t.decided.is_some()), t.votes, 0, x, y, z, w]
        }
        Err(why) => [why.number(), 0, 0, 0, 0, 0, 0, 0],
    }
}
