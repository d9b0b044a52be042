// A log in, the text out.
ghost use Rattle.report.specs.Text.{too_long_text};
ghost use Rattle.report.specs.Report.{report};
ghost use Rattle.report.specs.Written.{Printed};

use crate::progress::Progress;
use crate::text::report_of;
use logs::run::run;

// The longest log that is played, in bytes, and the most events.
pub const LIMIT: usize = 65536;

#[tactic(auto, unfolding(crate::specs::Text::too_long_text))]
fn report_too_long(out: &mut [u8]) -> usize
    ensures { Printed too_long_text out.old out.new result }
{
    let line: &[u8] = b"too long\n";
    if out.len() < line.len() {
        return 0;
    }
    out[..line.len()].copy_from_slice(line);
    line.len()
}

// The text of the log at the start of the buffer, and its length; where it does not fit, nothing and 0.
#[tactic(auto, unfolding(crate::specs::Report::report))]
pub fn report(log: &[u8], out: &mut [u8]) -> usize
    ensures { Printed (report log.now) out.old out.new result }
{
    if LIMIT < log.len() {
        return report_too_long(out);
    }
    let played = run(log, LIMIT);
    report_of(&played.settlement, Progress::from(&played), out)
}
