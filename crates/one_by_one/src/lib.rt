// A log played one event at a time through the public operations, by value or on a lent settlement. `./bench` times it beside RUN; it answers what RUN answers.
#![tactic(auto)]

ghost use Rattle.logs.specs.Run.{ran};
ghost use Rattle.report.specs.Report.{text_of};
ghost use Rattle.report.specs.Written.{Printed};

use crate::replay::{play_through, replay};
use report::progress::Progress;
use report::text::report_of;
use settlement::play::play;

mod replay;

// The text of the log, as `report` writes it; the events are lent ones or by value.
#[unsafe(no_mangle)]
pub extern "C" fn dagmuize_one_by_one(lent: bool, log: &[u8], limit: usize, out: &mut [u8]) -> usize
    ensures { Printed (text_of (ran log.now limit)) out.old out.new result }
{
    let played = if lent {
        replay(play_through, log, limit)
    } else {
        replay(play, log, limit)
    };
    report_of(&played.settlement, Progress::from(&played), out)
}
