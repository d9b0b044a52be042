// One entry of an image, read and stored at its place.
ghost use Rattle.std.specs.Prelude.{◌≡◌, ◌<◌};
ghost use Rattle.basics.specs.Bytes.{over};
ghost use Rattle.entry.specs.Entries.{station_entries, ballot_entries};
ghost use Rattle.image.specs.Entries.{station_bytes, voters_bytes, marks_bytes};
ghost use Rattle.image.specs.Image.{station_at, voters_at, marks_at, record_in};
ghost use Rattle.settlement.specs.Record.{entry, ballot};

use entry::entry::{Ballot, Station};
use image::ballot::{ballot_from, write_marks, write_voters};
use image::layout::{Image, MARKS, MARKS_WIDTH, STATION_WIDTH, STATIONS, VOTERS, VOTERS_WIDTH};
use image::station::{station_from, write_station};

pub(crate) fn station_in(image: &Image, i: usize) -> Station
    requires { i < station_entries }
    ensures { result ≡ entry (record_in image.now) i }
{
    station_from(&image[STATIONS + STATION_WIDTH * i..])
}

pub(crate) fn ballot_in(image: &Image, k: usize) -> Ballot
    requires { k < ballot_entries }
    ensures { result ≡ ballot (record_in image.now) k }
{
    ballot_from(
        &image[VOTERS + VOTERS_WIDTH * k..],
        &image[MARKS + MARKS_WIDTH * k..],
    )
}

pub(crate) fn store_station(image: &mut Image, i: usize, t: Station)
    requires { i < station_entries }
    ensures { image.new ≡ over (station_at i) (station_bytes t) image.old }
{
    write_station(&mut image[STATIONS + STATION_WIDTH * i..], t);
}

pub(crate) fn store_ballot(image: &mut Image, k: usize, t: Ballot)
    requires { k < ballot_entries }
    ensures { image.new ≡ over (marks_at k) (marks_bytes t) (over (voters_at k) (voters_bytes t) image.old) }
{
    write_voters(&mut image[VOTERS + VOTERS_WIDTH * k..], t);
    write_marks(&mut image[MARKS + MARKS_WIDTH * k..], t);
}
