// A ballot's entry: who voted in 8 bytes, its marks in 2.
ghost use Rattle.std.specs.Prelude.{◌≡◌};
ghost use Rattle.std.proofs.lemmas.List.Edits.{sets};
ghost use Rattle.image.specs.Entries.{voters_bytes, marks_bytes, ballot_from};

use basics::buffer::{byte_at, four_at, set_byte, set_four};
use entry::entry::Ballot;

// The entry whose two parts begin at the starts of these.
#[tactic(auto, unfolding(crate::specs::Entries::ballot_from))]
pub fn ballot_from(voters: &[u8], marks: &[u8]) -> Ballot
    ensures { result ≡ ballot_from voters.now marks.now }
{
    Ballot {
        cast0: four_at(voters, 0),
        cast1: four_at(voters, 4),
        answered: byte_at(marks, 0) == 1,
        answer: byte_at(marks, 1) == 1,
    }
}

// Who voted, stored from the part's start on, as far as the part reaches.
#[tactic(auto, unfolding(crate::specs::Entries::voters_bytes))]
pub fn write_voters(part: &mut [u8], t: Ballot)
    ensures { part.new ≡ sets part.old 0 (voters_bytes t) }
{
    set_four(part, 0, t.cast0);
    set_four(part, 4, t.cast1);
}

// The marks, stored likewise.
#[tactic(auto, unfolding(crate::specs::Entries::marks_bytes))]
pub fn write_marks(part: &mut [u8], t: Ballot)
    ensures { part.new ≡ sets part.old 0 (marks_bytes t) }
{
    set_byte(part, 0, u8::from(t.answered));
    set_byte(part, 1, u8::from(t.answer));
}
