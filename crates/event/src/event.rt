// The events (document 01, "Operations and what they turn away").
use bits::word::Word;

// An event with its arguments: CLAIM s, v; DELIVER t, s; STEP s; LOSE s; ANSWER b, a.
#[derive(Clone, Copy)]
pub enum Event {
    Claim { s: u8, v: Word },
    Deliver { t: u8, s: u8 },
    Step { s: u8 },
    Lose { s: u8 },
    Answer { b: u8, a: u8 },
}
