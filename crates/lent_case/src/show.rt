// How a record stands: its head, a station's entry, a ballot's.
use crate::print;
use settlement::record::Settlement;
use std::io;
use std::io::Write;

// The number of stations, and the rule.
pub(crate) fn head<W: Write>(out: &mut W, r: &Settlement) -> io::Result<()> {
    print::numbers(out, &[r.count.into(), r.rule.into()])
}

// The stage's place in document 01's order, from idle, 0, to decided, 7; lost; cursor, round; held, claim, word and decision.
pub(crate) fn station<W: Write>(out: &mut W, r: &Settlement, s: u8) -> io::Result<()> {
    let t = r.stations[usize::from(s % 32)];
    print::numbers(
        out,
        &[
            u8::from(t.stage).into(),
            t.lost.into(),
            t.cursor.into(),
            t.round.into(),
            t.held.into(),
            t.claim.into(),
            t.word.into(),
            t.decision.into(),
        ],
    )
}

// The stations that cast 0 and those that cast 1, as masks, whether it is answered, and the answer.
pub(crate) fn ballot<W: Write>(out: &mut W, r: &Settlement, b: u8) -> io::Result<()> {
    let t = r.ballots[usize::from(b % 64)];
    print::numbers(
        out,
        &[
            t.cast0.into(),
            t.cast1.into(),
            t.answered.into(),
            t.answer.into(),
        ],
    )
}
