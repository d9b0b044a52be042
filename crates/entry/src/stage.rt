// Which stage a station is at: one table, and tests of it.
ghost use Rattle.std.specs.Prelude.{◌≡◌};
ghost use Rattle.entry.specs.Stages.{rank, not_idle, is_decided, in_round, on_finish, past_waiting, Placed};

use crate::entry::Stage;

// The stage's place in document 01's order.
impl From<Stage> for u8 {
    ghost from_gives = { λ stage place. place ≡ rank stage };

    fn from(stage: Stage) -> u8 {
        match stage {
            Stage::Idle => 0,
            Stage::Waiting => 1,
            Stage::Voting => 2,
            Stage::Awaiting => 3,
            Stage::Seeking => 4,
            Stage::FinishVoting => 5,
            Stage::FinishAwaiting => 6,
            Stage::Decided => 7,
        }
    }
}

// A place that no stage has.
#[derive(Clone, Copy, Debug, PartialEq, Eq)]
pub struct NoStage(pub u8);

// The stage with this place.
impl TryFrom<u8> for Stage {
    type Error = NoStage;

    ghost try_from_gives = { Placed };

    fn try_from(place: u8) -> Result<Stage, NoStage> {
        match place {
            0 => Ok(Stage::Idle),
            1 => Ok(Stage::Waiting),
            2 => Ok(Stage::Voting),
            3 => Ok(Stage::Awaiting),
            4 => Ok(Stage::Seeking),
            5 => Ok(Stage::FinishVoting),
            6 => Ok(Stage::FinishAwaiting),
            7 => Ok(Stage::Decided),
            _ => Err(NoStage(place)),
        }
    }
}

impl Stage {
    // Whether a station at this stage has put in a claim.
    pub fn not_idle(self) -> bool
        ensures { result ≡ not_idle self }
    {
        self != Stage::Idle
    }

    pub fn is_decided(self) -> bool
        ensures { result ≡ is_decided self }
    {
        self == Stage::Decided
    }

    // Voting, awaiting or seeking.
    pub fn in_round(self) -> bool
        ensures { result ≡ in_round self }
    {
        matches!(self, Stage::Voting | Stage::Awaiting | Stage::Seeking)
    }

    // Voting or awaiting on a finish ballot.
    pub fn on_finish(self) -> bool
        ensures { result ≡ on_finish self }
    {
        matches!(self, Stage::FinishVoting | Stage::FinishAwaiting)
    }

    // In a round, on a finish ballot or decided.
    pub fn past_waiting(self) -> bool
        ensures { result ≡ past_waiting self }
    {
        self.in_round() || self.on_finish() || self.is_decided()
    }
}
