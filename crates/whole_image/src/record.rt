// A whole record read off an image, and stored as one.
ghost use Rattle.std.specs.Prelude.{◌≡◌};
ghost use Rattle.basics.specs.Refusals.{told};
ghost use Rattle.settlement.specs.Outcome.{outcome_told};
ghost use Rattle.image.specs.Image.{image_of, record_in, stations_in, ballots_in};
ghost use Rattle.whole_image.specs.Whole.{read_record, stored_number, stored};

use basics::refusal::Refusal;
use entry::entry::{BALLOT_ENTRIES, Ballot, STATION_ENTRIES, Station, blank_ballot, blank_station};
use image::ballot::{ballot_from, write_marks, write_voters};
use image::layout::{
    Image, MARKS, MARKS_WIDTH, STATION_WIDTH, STATIONS, VERSION, VOTERS, VOTERS_WIDTH,
};
use image::station::{station_from, write_station};
use image::unread::as_image;
use settlement::open::blank;
use settlement::record::{Outcome, Refused, Settlement};

fn stations_in(image: &Image) -> [Station; STATION_ENTRIES as usize]
    ensures { result ≡ stations_in image.now }
{
    let mut stations = [blank_station(); STATION_ENTRIES as usize];
    for (s, t) in stations.iter_mut().enumerate() {
        *t = station_from(&image[STATIONS + STATION_WIDTH * s..]);
    }
    stations
}

fn ballots_in(image: &Image) -> [Ballot; BALLOT_ENTRIES]
    ensures { result ≡ ballots_in image.now }
{
    let mut ballots = [blank_ballot(); BALLOT_ENTRIES];
    for (k, t) in ballots.iter_mut().enumerate() {
        *t = ballot_from(
            &image[VOTERS + VOTERS_WIDTH * k..],
            &image[MARKS + MARKS_WIDTH * k..],
        );
    }
    ballots
}

// What the bytes say where they are an image.
#[tactic(auto, unfolding(image::specs::Image::record_in))]
pub fn record_in(image: &Image) -> Settlement
    ensures { result ≡ record_in image.now }
{
    Settlement {
        count: image[1],
        rule: image[2],
        stations: stations_in(image),
        ballots: ballots_in(image),
    }
}

// The record of an image; where the bytes are none, why, and the blank settlement.
#[tactic(auto, unfolding(crate::specs::Whole::read_record, settlement::specs::Events::outcome), using(basics::proofs::Refusals::some_number))]
pub fn read_record(bytes: &[u8]) -> Outcome
    ensures { outcome_told result ≡ read_record bytes.now }
{
    match as_image(bytes) {
        Ok(image) => Ok(record_in(image)),
        Err(why) => Err(Refused {
            why,
            settlement: blank(),
        }),
    }
}

// The version, the record's numbers and its stations; then who voted in the ballots, and then their marks.
pub fn store(image: &mut Image, r: &Settlement)
    ensures { image.new ≡ image_of r.now }
{
    image[0] = VERSION;
    image[1] = r.count;
    image[2] = r.rule;
    for (s, t) in r.stations.iter().enumerate() {
        write_station(&mut image[STATIONS + STATION_WIDTH * s..], *t);
    }
    'voters: for (k, t) in r.ballots.iter().enumerate() {
        write_voters(&mut image[VOTERS + VOTERS_WIDTH * k..], *t);
    }
    'marks: for (k, t) in r.ballots.iter().enumerate() {
        write_marks(&mut image[MARKS + MARKS_WIDTH * k..], *t);
    }
}

// The record stored as an image; in a buffer of another length nothing.
#[tactic(auto, unfolding(crate::specs::Whole::stored_number, crate::specs::Whole::stored))]
pub fn store_record(bytes: &mut [u8], r: &Settlement) -> Result<(), Refusal>
    ensures refused { told result ≡ stored_number bytes.old 0 }
    ensures image_after { bytes.new ≡ stored bytes.old r.now }
{
    let image: &mut Image = bytes.as_mut_array().ok_or(Refusal::ImageLength)?;
    store(image, r);
    Ok(())
}
