// READ and RUN.
use crate::print;
use basics::buffer::four_at;
use basics::refusal::told;
use event::event::Event;
use field::field::{Field, kind_of};
use field::read::read;
use field::table::row_of;
use logs::rest::rest;
use logs::run::run;
use settlement::record::Settlement;
use std::io;
use std::io::Write;

// A field's numbers; 0 where it has none.
fn numbers_of(field: Field) -> (u8, u8, u32) {
    match field {
        Field::Open { n, rule } => (n, rule, 0),
        Field::Play { event } => match event {
            Event::Claim { s, v } => (s, 0, v),
            Event::Deliver { t, s } => (t, s, 0),
            Event::Step { s } | Event::Lose { s } => (s, 0, 0),
            Event::Answer { b, a } => (b, a, 0),
        },
        Field::Note => (0, 0, 0),
    }
}

// READ: the field's tag, its numbers and the bytes taken, or the number alone.
pub(crate) fn read_of<W: Write>(out: &mut W, s: &[u8]) -> io::Result<()> {
    match read(s) {
        Ok(found) => {
            let (first, second, claim) = numbers_of(found.field);
            print::numbers(
                out,
                &[
                    row_of(kind_of(found.field)).tag.into(),
                    first.into(),
                    second.into(),
                    claim.into(),
                    found.taken as u64,
                ],
            )
        }
        Err(refusal) => print::number(out, refusal.number().into()),
    }
}

// RUN: events, bytes taken and status; its settlement goes on. Before the log stands the limit.
pub(crate) fn runs<W: Write>(out: &mut W, r: &mut Settlement, s: &[u8]) -> io::Result<()> {
    let a = run(rest(s, 4), four_at(s, 0) as usize);
    *r = a.settlement;
    let status = told(a.status);
    print::numbers(out, &[a.events as u64, a.taken as u64, status.into()])
}
