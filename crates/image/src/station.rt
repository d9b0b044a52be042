// A station's entry, in 20 bytes.
ghost use Rattle.std.specs.Prelude.{◌≡◌};
ghost use Rattle.std.proofs.lemmas.List.Edits.{sets};
ghost use Rattle.image.specs.Entries.{stage_from, station_bytes, station_from};

use basics::buffer::{byte_at, four_at, set_byte, set_four};
use entry::entry::{Stage, Station};

// The stage with this place in the table of stages; idle where no stage has it.
pub fn stage_from(x: u8) -> Stage
    ensures { result ≡ stage_from x }
{
    Stage::try_from(x).unwrap_or(Stage::Idle)
}

// The entry that begins at the part's start.
#[tactic(auto, unfolding(crate::specs::Entries::station_from))]
pub fn station_from(part: &[u8]) -> Station
    ensures { result ≡ station_from part.now }
{
    Station {
        stage: stage_from(byte_at(part, 0)),
        lost: byte_at(part, 1) == 1,
        cursor: byte_at(part, 2),
        round: byte_at(part, 3),
        held: four_at(part, 4),
        claim: four_at(part, 8),
        word: four_at(part, 12),
        decision: four_at(part, 16),
    }
}

// The entry stored from the part's start on, as far as the part reaches.
#[tactic(auto, unfolding(crate::specs::Entries::station_bytes))]
pub fn write_station(part: &mut [u8], t: Station)
    ensures { part.new ≡ sets part.old 0 (station_bytes t) }
{
    set_byte(part, 0, u8::from(t.stage));
    set_byte(part, 1, u8::from(t.lost));
    set_byte(part, 2, t.cursor);
    set_byte(part, 3, t.round);
    set_four(part, 4, t.held);
    set_four(part, 8, t.claim);
    set_four(part, 12, t.word);
    set_four(part, 16, t.decision);
}
