// The functions that other languages call: numbers and byte slices only.
#![tactic(auto)]

ghost use Rattle.std.specs.Prelude.{◌≡◌, ◌*◌};
ghost use Rattle.basics.specs.Refusals.{number_of as refusal_number};
ghost use Rattle.field.specs.Read.{found, number_of, taken_of};
ghost use Rattle.logs.specs.Run.{ran};
ghost use Rattle.field.specs.Table.{row_with};
ghost use Rattle.exports.specs.Exports.{put_answer, put_after};
ghost use Rattle.report.specs.Report.{report};
ghost use Rattle.report.specs.Written.{Printed};
ghost use Rattle.whole_image.specs.Whole.{stored_number, stored, image_text};

use basics::refusal::{Refusal, told};
use bits::word::Word;
use field::field::field_from;
use field::head::head_of;
use field::table::row_with;
use logs::run::run;
use put::put::put;
use report::report::report;
use whole_image::whole::{image_of_log, image_report};

#[unsafe(no_mangle)]
pub extern "C" fn dagmuize_report(log: &[u8], out: &mut [u8]) -> usize
    ensures { Printed (report log.now) out.old out.new result }
{
    report(log, out)
}

// RUN's answers.
#[unsafe(no_mangle)]
pub extern "C" fn dagmuize_status(log: &[u8], limit: usize) -> u8
    ensures { result ≡ (ran log.now limit).status }
{
    told(run(log, limit).status)
}

#[unsafe(no_mangle)]
pub extern "C" fn dagmuize_events(log: &[u8], limit: usize) -> usize
    ensures { result ≡ (ran log.now limit).events }
{
    run(log, limit).events
}

#[unsafe(no_mangle)]
pub extern "C" fn dagmuize_taken(log: &[u8], limit: usize) -> usize
    ensures { result ≡ (ran log.now limit).taken }
{
    run(log, limit).taken
}

// READ's number and the bytes that it takes: its head has both.
#[unsafe(no_mangle)]
pub extern "C" fn dagmuize_read_number(log: &[u8]) -> u8
    ensures { result ≡ number_of (found log.now) }
{
    match head_of(log) {
        Ok(_) => 0,
        Err(refusal) => refusal.number(),
    }
}

#[unsafe(no_mangle)]
pub extern "C" fn dagmuize_read_taken(log: &[u8]) -> usize
    ensures { result ≡ taken_of (found log.now) }
{
    match head_of(log) {
        Ok(head) => head.taken,
        Err(_) => 0,
    }
}

fn refused(refusal: Refusal) -> u32
    ensures { result ≡ refusal_number refusal * 65536 }
{
    u32::from(refusal.number()) * 65536
}

// PUT of the field with this tag: 65,536 times the number, and the count.
#[tactic(auto, unfolding(crate::specs::Exports::put_answer, crate::specs::Exports::put_after), using(crate::proofs::Counts::few_bytes, crate::proofs::Counts::as_asked))]
#[unsafe(no_mangle)]
pub extern "C" fn dagmuize_put(
    tag: u8,
    x: u8,
    y: u8,
    v: Word,
    note: &[u8],
    buffer: &mut [u8],
    place: usize,
) -> u32
    ensures value { result ≡ put_answer (row_with tag) x y v note.now buffer.old place }
    ensures buffer_after { buffer.new ≡ put_after (row_with tag) x y v note.now buffer.old place }
{
    match row_with(tag) {
        Some(row) => match put(field_from(row.kind, x, y, v), note, buffer, place) {
            Ok(count) => count as u32,
            Err(refusal) => refused(refusal),
        },
        None => refused(Refusal::UnknownTag),
    }
}

#[unsafe(no_mangle)]
pub extern "C" fn dagmuize_image_report(
    image: &[u8],
    events: usize,
    taken: usize,
    status: u8,
    out: &mut [u8],
) -> usize
    ensures { Printed (image_text image.now events taken status) out.old out.new result }
{
    image_report(image, events, taken, status, out)
}

// RUN's status, and its settlement as an image.
#[unsafe(no_mangle)]
pub extern "C" fn dagmuize_play(log: &[u8], limit: usize, image: &mut [u8]) -> u8
    ensures value { result ≡ stored_number image.old (ran log.now limit).status }
    ensures image_after { image.new ≡ stored image.old (ran log.now limit).settlement }
{
    told(image_of_log(log, limit, image))
}
