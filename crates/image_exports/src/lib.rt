// The functions that other languages call on an image, a settlement as bytes that the caller keeps. They are a library of their own, beside `exports`:
// in one library with RUN the compiler would not inline what both call, and RUN would be slower.
#![tactic(auto)]

ghost use Rattle.std.specs.Prelude.{◌≡◌, ◌*◌, ◌<◌, IfOk, IfErr};
ghost use Rattle.basics.specs.Refusals.{number_of};
ghost use Rattle.consensus.specs.Events.{claim, deliver, step, lose, answer};
ghost use Rattle.settlement.specs.Events.{opened};
ghost use Rattle.settlement.specs.Look.{standing_told};
ghost use Rattle.on_image.specs.Events.{image_number, image_after};
ghost use Rattle.on_image.specs.Look.{looked_on, standing_word, all_answer, all_after};
ghost use Rattle.on_image.specs.Tally.{tally_answer, tally_after};
ghost use Rattle.whole_image.specs.Whole.{stored_number, stored};

use basics::refusal::{Refusal, told};
use bits::word::Word;
use on_image::events::{answer_on, claim_on, deliver_on, lose_on, step_on};
use on_image::look::{look_on, standing_bytes};
use on_image::look_all::look_all;
use on_image::look_ballot::look_ballot_on;
use settlement::record::Standing;
use whole_image::whole::open_image;

// LOOK's answer as one number: its eight bytes, high byte first.
#[tactic(auto, unfolding(on_image::specs::Look::standing_word, on_image::specs::Look::standing_bytes))]
fn standing_word(answer: Result<Standing, Refusal>) -> u64
    ensures { result ≡ standing_word (standing_told answer) }
{
    u64::from_be_bytes(standing_bytes(answer))
}

// 65,536 times the number, or the bytes written.
fn packed(answer: Result<usize, Refusal>) -> u32
    requires { IfOk answer (λ count. count < 65536) }
    ensures accepted { IfOk answer (λ count. result ≡ count) }
    ensures refused { IfErr answer (λ why. result ≡ 65536 * number_of why) }
{
    match answer {
        Ok(count) => count as u32,
        Err(why) => 65536 * u32::from(why.number()),
    }
}

#[unsafe(no_mangle)]
pub extern "C" fn dagmuize_open(image: &mut [u8], n: u8, rule: u8) -> u8
    ensures value { result ≡ stored_number image.old (opened n rule).number }
    ensures image_after { image.new ≡ stored image.old (opened n rule).settlement }
{
    told(open_image(image, n, rule))
}

#[unsafe(no_mangle)]
pub extern "C" fn dagmuize_claim(image: &mut [u8], s: u8, v: Word) -> u8
    ensures value { result ≡ image_number image.old (claim s v) }
    ensures image_after { image.new ≡ image_after image.old (claim s v) }
{
    told(claim_on(image, s, v))
}

#[unsafe(no_mangle)]
pub extern "C" fn dagmuize_deliver(image: &mut [u8], t: u8, s: u8) -> u8
    ensures value { result ≡ image_number image.old (deliver t s) }
    ensures image_after { image.new ≡ image_after image.old (deliver t s) }
{
    told(deliver_on(image, t, s))
}

#[unsafe(no_mangle)]
pub extern "C" fn dagmuize_step(image: &mut [u8], s: u8) -> u8
    ensures value { result ≡ image_number image.old (step s) }
    ensures image_after { image.new ≡ image_after image.old (step s) }
{
    told(step_on(image, s))
}

#[unsafe(no_mangle)]
pub extern "C" fn dagmuize_lose(image: &mut [u8], s: u8) -> u8
    ensures value { result ≡ image_number image.old (lose s) }
    ensures image_after { image.new ≡ image_after image.old (lose s) }
{
    told(lose_on(image, s))
}

#[unsafe(no_mangle)]
pub extern "C" fn dagmuize_answer(image: &mut [u8], b: u8, a: u8) -> u8
    ensures value { result ≡ image_number image.old (answer b a) }
    ensures image_after { image.new ≡ image_after image.old (answer b a) }
{
    told(answer_on(image, b, a))
}

// LOOK's answer in one number.
#[unsafe(no_mangle)]
pub extern "C" fn dagmuize_look(image: &[u8], s: u8) -> u64
    ensures { result ≡ standing_word (looked_on image.now s) }
{
    standing_word(look_on(image, s))
}

#[unsafe(no_mangle)]
#[tactic(auto, unfolding(on_image::specs::Look::all_answer), using(basics::proofs::Refusals::some_number, image::proofs::Image::count_in))]
pub extern "C" fn dagmuize_look_all(image: &[u8], out: &mut [u8]) -> u32
    ensures value { result ≡ all_answer image.now out.old }
    ensures out_after { out.new ≡ all_after image.now out.old }
{
    packed(look_all(image, out))
}

// LOOK at a ballot: 65,536 times the number, and the bytes written.
#[unsafe(no_mangle)]
#[tactic(auto, unfolding(on_image::specs::Tally::tally_answer), using(basics::proofs::Refusals::some_number))]
pub extern "C" fn dagmuize_look_ballot(image: &[u8], b: u8, out: &mut [u8]) -> u32
    ensures value { result ≡ tally_answer image.now b out.old }
    ensures out_after { out.new ≡ tally_after image.now b out.old }
{
    packed(look_ballot_on(image, b, out))
}
