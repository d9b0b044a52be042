// The five events by name, on an image: C calls each.
ghost use Rattle.std.specs.Prelude.{◌≡◌};
ghost use Rattle.basics.specs.Refusals.{told};
ghost use Rattle.consensus.specs.Events.{claim, deliver, step, lose, answer};
ghost use Rattle.on_image.specs.Events.{image_number, image_after};

use crate::play::play;
use basics::refusal::Refusal;
use bits::word::Word;
use event::event::Event;

// CLAIM s, v.
pub fn claim_on(bytes: &mut [u8], s: u8, v: Word) -> Result<(), Refusal>
    ensures refused { told result ≡ image_number bytes.old (claim s v) }
    ensures image_after { bytes.new ≡ image_after bytes.old (claim s v) }
{
    play(bytes, Event::Claim { s, v })
}

// DELIVER t, s.
pub fn deliver_on(bytes: &mut [u8], t: u8, s: u8) -> Result<(), Refusal>
    ensures refused { told result ≡ image_number bytes.old (deliver t s) }
    ensures image_after { bytes.new ≡ image_after bytes.old (deliver t s) }
{
    play(bytes, Event::Deliver { t, s })
}

// STEP s.
pub fn step_on(bytes: &mut [u8], s: u8) -> Result<(), Refusal>
    ensures refused { told result ≡ image_number bytes.old (step s) }
    ensures image_after { bytes.new ≡ image_after bytes.old (step s) }
{
    play(bytes, Event::Step { s })
}

// LOSE s.
pub fn lose_on(bytes: &mut [u8], s: u8) -> Result<(), Refusal>
    ensures refused { told result ≡ image_number bytes.old (lose s) }
    ensures image_after { bytes.new ≡ image_after bytes.old (lose s) }
{
    play(bytes, Event::Lose { s })
}

// ANSWER b, a.
pub fn answer_on(bytes: &mut [u8], b: u8, a: u8) -> Result<(), Refusal>
    ensures refused { told result ≡ image_number bytes.old (answer b a) }
    ensures image_after { bytes.new ≡ image_after bytes.old (answer b a) }
{
    play(bytes, Event::Answer { b, a })
}
