// One command of a script, by its tag: a field of a log as document 01 has it (a note is written out as it stands), or one of these letters.
//     N  n, rule     the head, made up              H             shows the head
//     S  s, ..       a station's entry, made up     E  s          shows a station's entry
//     B  b, ..       a ballot's entry, made up      V  b          shows a ballot's entry
//     K  s           LOOK                           L  b          LOOK at a ballot
//     r  limit, log  RUN                            b  bytes      BODY
//     t  taken, log  REST                           d  bytes      READ
//     c  k, a, b     compares two words             l  claim      its length
use crate::{made_up, parts, print, settled, show};
use basics::buffer::{byte_at, four_at};
use bits::word::{bit_length, first_difference};
use field::body::body;
use field::field::event_from;
use field::table::{Kind, row_with};
use logs::rest::rest;
use settlement::record::Settlement;
use std::io;
use std::io::Write;

// What asks no settlement.
fn reads<W: Write>(out: &mut W, tag: u8, s: &[u8]) -> io::Result<()> {
    match tag {
        b'b' => print::part(out, body(s)),
        b'd' => parts::read_of(out, s),
        b't' => print::part(out, rest(rest(s, 4), four_at(s, 0) as usize)),
        b'l' => print::number(out, bit_length(four_at(s, 0)).into()),
        // 1 and the first bit that differs, or 0
        b'c' => match first_difference(four_at(s, 1), four_at(s, 5), byte_at(s, 0)) {
            Some(place) => print::numbers(out, &[1, place.into()]),
            None => print::number(out, 0),
        },
        _ => Ok(()),
    }
}

// What only asks the settlement.
fn asks<W: Write>(out: &mut W, tag: u8, first: u8, r: &Settlement) -> io::Result<()> {
    match tag {
        b'K' => settled::looks(out, r, first),
        b'L' => settled::looks_at_ballot(out, r, first),
        b'H' => show::head(out, r),
        b'E' => show::station(out, r, first),
        b'V' => show::ballot(out, r, first),
        _ => Ok(()),
    }
}

// What makes a record up.
fn makes_up(tag: u8, body: &[u8], r: &mut Settlement) {
    let first = byte_at(body, 0);
    match tag {
        b'N' => made_up::head(r, first, byte_at(body, 1)),
        b'S' => made_up::station(r, first, body),
        b'B' => made_up::ballot(r, first, body),
        _ => {}
    }
}

// A field of a log.
fn takes<W: Write>(out: &mut W, kind: Kind, body: &[u8], r: &mut Settlement) -> io::Result<()> {
    let first = byte_at(body, 0);
    let second = byte_at(body, 1);
    match kind {
        Kind::Open => settled::opens(out, r, first, second),
        Kind::Note => out.write_all(body),
        _ => settled::plays(out, r, event_from(kind, first, second, four_at(body, 1))),
    }
}

pub(crate) fn command<W: Write>(
    out: &mut W,
    tag: u8,
    body: &[u8],
    r: &mut Settlement,
) -> io::Result<()> {
    if let Some(row) = row_with(tag) {
        return takes(out, row.kind, body, r);
    }
    if tag == b'r' {
        return parts::runs(out, r, body);
    }
    makes_up(tag, body, r);
    asks(out, tag, byte_at(body, 0), r)?;
    reads(out, tag, body)
}
