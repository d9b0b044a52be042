// The record test, over the bytes.
ghost use Rattle.std.specs.Prelude.{◌≡◌, ◌≤◌, false, IfOk};
ghost use Rattle.basics.specs.Below.{any_below};
ghost use Rattle.basics.specs.Bytes.{byte};
ghost use Rattle.basics.specs.Refusals.{told};
ghost use Rattle.entry.specs.Entries.{station_entries};
ghost use Rattle.image.specs.Entries.{stage_from};
ghost use Rattle.image.specs.Image.{record_in, tested_first};
ghost use Rattle.settlement.specs.Fault.{fault, fault_at};

use basics::refusal::{Refusal, refuse_if};
use entry::entry::{STATION_ENTRIES, Station, blank_station};
use image::layout::{Image, STATION_WIDTH, STATIONS};
use image::station::stage_from;
use image::unread::as_image;
use settlement::fault::station_faulty;

// A station with this stage, cursor and round, and else blank: what the record test asks of one.
fn standing_so(stage: u8, cursor: u8, round: u8) -> Station
    ensures { result ≡ record { stage = stage_from stage; lost = false; held = 0; claim = 0; cursor = cursor; round = round; word = 0; decision = 0 } }
{
    Station {
        stage: stage_from(stage),
        cursor,
        round,
        ..blank_station()
    }
}

// Whether a station below n has a fault.
fn some_station_faulty(image: &Image) -> bool
    requires { byte image.now 1 ≤ station_entries }
    ensures { result ≡ any_below (byte image.now 1) (fault_at (record_in image.now)) }
{
    let n = image[1];
    let rule = image[2];
    let mut found = false;
    for s in 0..n {
        let at = STATIONS + STATION_WIDTH * s as usize;
        let t = standing_so(image[at], image[at + 2], image[at + 3]);
        found |= station_faulty(n, rule, t);
    }
    found
}

#[tactic(auto, unfolding(settlement::specs::Fault::fault, image::specs::Image::record_in))]
pub(crate) fn faulty_in(image: &Image) -> bool
    ensures { result ≡ fault (record_in image.now) }
{
    STATION_ENTRIES < image[1] || !matches!(image[2], 1 | 2) || some_station_faulty(image)
}

// The bytes as an image whose record is within its ranges, or why they are none.
#[tactic(auto, using(basics::proofs::Refusals::some_number))]
pub fn sound_image(bytes: &[u8]) -> Result<&Image, Refusal>
    ensures refused { told result ≡ tested_first bytes.now 0 }
    ensures same { IfOk result (λ image. image.now ≡ bytes.now) }
{
    let image = as_image(bytes)?;
    refuse_if(faulty_in(image), Refusal::Record)?;
    Ok(image)
}
