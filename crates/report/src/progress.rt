// What line one says of how a log was played.
ghost use Rattle.std.specs.Prelude.{◌≡◌};
ghost use Rattle.logs.specs.Run.{replay_told};

use basics::refusal::told;
use logs::run::Replay;

// The events played, the bytes taken, and the number of the status that it stopped with: C may hand in any number.
#[derive(Clone, Copy)]
pub struct Progress {
    pub events: usize,
    pub taken: usize,
    pub status: u8,
}

impl From<&Replay> for Progress {
    ghost from_gives = { λ r p. let x = replay_told r.now in p ≡ record { events = x.events; taken = x.taken; status = x.status } };

    fn from(r: &Replay) -> Progress {
        Progress {
            events: r.events,
            taken: r.taken,
            status: told(r.status),
        }
    }
}
