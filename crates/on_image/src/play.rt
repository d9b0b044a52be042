// One event, whichever it is, on an image: the tests, and then the event on the entries that it looks at.
ghost use Rattle.std.specs.Prelude.{◌≡◌, cond, eqb};
ghost use Rattle.basics.specs.Refusals.{told};
ghost use Rattle.event.specs.Meant.{meant};
ghost use Rattle.settlement.specs.Events.{played};
ghost use Rattle.image.specs.Image.{image_of, record_in, no_image};
ghost use Rattle.on_image.specs.Events.{image_number, image_after};

use crate::fault::faulty_in;
use crate::place::{ballot_in, station_in, store_ballot, store_station};
use basics::refusal::{Refusal, refuse_if};
use change::change::change_of;
use event::event::Event;
use event::place::{ballot_of, ballot_place, beside_of, own_of, station_place};
use event::view::View;
use image::layout::Image;
use image::unread::as_image;

fn play_in(image: &mut Image, e: Event) -> Result<(), Refusal>
    requires { no_image image.old ≡ 0 }
    ensures refused { told result ≡ (played (record_in image.old) (meant e)).number }
    ensures image_after { image.new ≡ cond (eqb (told result) 0) (image_of (played (record_in image.old) (meant e)).settlement) image.old }
{
    refuse_if(faulty_in(image), Refusal::Record)?;
    let count = image[1];
    let rule = image[2];
    let i = station_place(own_of(e));
    let own = station_in(image, i);
    let beside = station_in(image, station_place(beside_of(count, own, e)));
    let k = ballot_place(ballot_of(rule, own, e));
    let ballot = ballot_in(image, k);
    let v = View {
        count,
        rule,
        own,
        beside,
        ballot,
    };
    let change = change_of(v, e)?;
    store_station(image, i, change.own);
    store_ballot(image, k, change.ballot);
    Ok(())
}

#[tactic(auto, using(basics::proofs::Refusals::some_number, image::proofs::Image::other_length_80, crate::proofs::Laws::number_none, crate::proofs::Laws::after_none, crate::proofs::Laws::number_there, crate::proofs::Laws::after_there))]
pub fn play(bytes: &mut [u8], e: Event) -> Result<(), Refusal>
    ensures refused { told result ≡ image_number bytes.old (meant e) }
    ensures image_after { bytes.new ≡ image_after bytes.old (meant e) }
{
    let image: &mut Image = bytes.as_mut_array().ok_or(Refusal::ImageLength)?;
    as_image(image)?;
    play_in(image, e)
}
