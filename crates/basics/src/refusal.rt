// Why a call is turned away, and the numbers of it: the first test met gives the refusal, and 0 is accepted.
ghost use Rattle.std.specs.Prelude.{◌≡◌};
ghost use Rattle.basics.specs.Refusals.{number_of, refused_if, told};

// Every refusal of documents 01 and 02, in the order of the numbers. `include/numbers.txt` has the words.
#[derive(Clone, Copy, Debug, PartialEq, Eq)]
pub enum Refusal {
    NoStation,
    Lost,
    Claimed,
    NotClaimed,
    Held,
    Idle,
    Decided,
    Waits,
    NoBallot,
    NoBit,
    Answered,
    NotCast,
    Short,
    UnknownTag,
    WrongLength,
    Cut,
    NoOpening,
    SecondOpening,
    Limit,
    NoRoom,
    Stations,
    Rule,
    Record,
    NotClosed,
    OpeningsDiffer,
    StationInBoth,
    NoOrder,
    ImageLength,
    ImageVersion,
}

impl Refusal {
    pub fn number(self) -> u8
        ensures { result ≡ number_of self }
    {
        match self {
            Refusal::NoStation => 1,
            Refusal::Lost => 2,
            Refusal::Claimed => 3,
            Refusal::NotClaimed => 4,
            Refusal::Held => 5,
            Refusal::Idle => 6,
            Refusal::Decided => 7,
            Refusal::Waits => 8,
            Refusal::NoBallot => 9,
            Refusal::NoBit => 10,
            Refusal::Answered => 11,
            Refusal::NotCast => 12,
            Refusal::Short => 20,
            Refusal::UnknownTag => 21,
            Refusal::WrongLength => 22,
            Refusal::Cut => 23,
            Refusal::NoOpening => 24,
            Refusal::SecondOpening => 25,
            Refusal::Limit => 26,
            Refusal::NoRoom => 30,
            Refusal::Stations => 40,
            Refusal::Rule => 41,
            Refusal::Record => 42,
            Refusal::NotClosed => 43,
            Refusal::OpeningsDiffer => 60,
            Refusal::StationInBoth => 61,
            Refusal::NoOrder => 62,
            Refusal::ImageLength => 80,
            Refusal::ImageVersion => 81,
        }
    }
}

// The refusal where the test is met; else the later tests decide.
pub fn refuse_if(met: bool, refusal: Refusal) -> Result<(), Refusal>
    ensures { result ≡ refused_if met refusal }
{
    if met { Err(refusal) } else { Ok(()) }
}

// 0 where the call was accepted, else the number of the refusal.
pub fn told(answer: Result<(), Refusal>) -> u8
    ensures { result ≡ told answer }
{
    match answer {
        Ok(()) => 0,
        Err(refusal) => refusal.number(),
    }
}
