// OPEN, the five events, LOOK, and LOOK at a ballot: each writes 0 or the number of the refusal first.
use crate::print;
use basics::refusal::told;
use event::event::Event;
use lent::events::play_lent;
use lent::opening::{look_ballot_lent, look_lent, open_lent};
use settlement::record::Settlement;
use std::io;
use std::io::Write;

pub(crate) fn opens<W: Write>(out: &mut W, r: &mut Settlement, n: u8, rule: u8) -> io::Result<()> {
    print::number(out, told(open_lent(r, n, rule)).into())
}

pub(crate) fn plays<W: Write>(out: &mut W, r: &mut Settlement, e: Event) -> io::Result<()> {
    print::number(out, told(play_lent(r, e)).into())
}

// LOOK s: its number, whether decided, the claim and the votes.
pub(crate) fn looks<W: Write>(out: &mut W, r: &Settlement, s: u8) -> io::Result<()> {
    match look_lent(r, s) {
        Ok(shown) => print::numbers(
            out,
            &[
                0,
                shown.decided.is_some().into(),
                shown.decided.unwrap_or(0).into(),
                shown.votes.into(),
            ],
        ),
        Err(why) => print::numbers(out, &[why.number().into(), 0, 0, 0]),
    }
}

// LOOK at ballot b: its number, both sets as masks, how many are in each, whether it is answered, and the answer.
pub(crate) fn looks_at_ballot<W: Write>(out: &mut W, r: &Settlement, b: u8) -> io::Result<()> {
    match look_ballot_lent(r, b) {
        Ok(shown) => print::numbers(
            out,
            &[
                0,
                shown.cast0.into(),
                shown.cast1.into(),
                shown.count0.into(),
                shown.count1.into(),
                shown.answer.is_some().into(),
                shown.answer.unwrap_or(false).into(),
            ],
        ),
        Err(why) => print::numbers(out, &[why.number().into(), 0, 0, 0, 0, 0, 0]),
    }
}
