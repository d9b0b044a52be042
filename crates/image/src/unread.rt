// Which bytes are no image.
ghost use Rattle.std.specs.Prelude.{◌≡◌, IfOk, length, drop};
ghost use Rattle.basics.specs.Below.{any_below};
ghost use Rattle.basics.specs.Bytes.{byte};
ghost use Rattle.basics.specs.Refusals.{told};
ghost use Rattle.entry.specs.Entries.{station_entries};
ghost use Rattle.image.specs.Entries.{no_mark, station_unread};
ghost use Rattle.image.specs.Image.{station_at, unread, no_image};

use crate::layout::{Image, MARKS, STATION_WIDTH, STATIONS, VERSION};
use basics::refusal::{Refusal, refuse_if};
use entry::entry::STATION_ENTRIES;

// Whether a byte of the part is no mark.
#[tactic(auto, using(basics::proofs::Below::any_next), unfolding(basics::specs::Below::any_below))]
fn some_no_mark(part: &[u8]) -> bool
    ensures { result ≡ any_below (length part.now) (λ i. no_mark (byte part.now i)) }
{
    let mut found = false;
    for b in part {
        found |= 1 < *b;
    }
    found
}

// Whether a station has a stage or a mark that does not exist.
fn some_station_unread(image: &Image) -> bool
    ensures { result ≡ any_below station_entries (λ s. station_unread (drop (station_at s) image.now)) }
{
    let mut found = false;
    for s in 0..STATION_ENTRIES {
        let at = STATIONS + STATION_WIDTH * s as usize;
        found |= (7 < image[at]) | (1 < image[at + 1]);
    }
    found
}

// Whether some byte says a stage or a mark that does not exist.
fn unread(image: &Image) -> bool
    ensures { result ≡ unread image.now }
{
    some_station_unread(image) | some_no_mark(&image[MARKS..])
}

// The bytes as an image, or why they are none.
#[tactic(auto, unfolding(crate::specs::Image::no_image, basics::specs::Tests::first_met))]
pub fn as_image(bytes: &[u8]) -> Result<&Image, Refusal>
    ensures refused { told result ≡ no_image bytes.now }
    ensures same { IfOk result (λ image. image.now ≡ bytes.now) }
{
    let image: &Image = bytes.as_array().ok_or(Refusal::ImageLength)?;
    refuse_if(image[0] != VERSION, Refusal::ImageVersion)?;
    refuse_if(unread(image), Refusal::Record)?;
    Ok(image)
}
