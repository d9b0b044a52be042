// A record made up by hand: the number of stations and the rule, a station's entry, or a ballot's.
use basics::buffer::{byte_at, four_at};
use entry::entry::{Ballot, Stage, Station};
use settlement::record::Settlement;

// The number of stations and the rule.
pub(crate) fn head(r: &mut Settlement, n: u8, rule: u8) {
    r.count = n;
    r.rule = rule;
}

// Station, stage, lost, cursor, round; then held, claim, word and decision of four bytes each.
pub(crate) fn station(r: &mut Settlement, s: u8, body: &[u8]) {
    r.stations[usize::from(s % 32)] = Station {
        stage: Stage::try_from(byte_at(body, 1)).unwrap_or(Stage::Decided),
        lost: byte_at(body, 2) != 0,
        cursor: byte_at(body, 3),
        round: byte_at(body, 4),
        held: four_at(body, 5),
        claim: four_at(body, 9),
        word: four_at(body, 13),
        decision: four_at(body, 17),
    };
}

// Ballot, marks; then the stations that cast 0 and those that cast 1, four bytes each. The marks are the low bits of one number: whether it is
// answered, and the answer.
pub(crate) fn ballot(r: &mut Settlement, b: u8, body: &[u8]) {
    let marks = byte_at(body, 1);
    r.ballots[usize::from(b % 64)] = Ballot {
        cast0: four_at(body, 2),
        cast1: four_at(body, 6),
        answered: marks % 2 == 1,
        answer: marks / 2 % 2 == 1,
    };
}
