// The report of a log in a buffer that no text is too long for.
ghost use Rattle.std.specs.Prelude.{◌≡◌};
ghost use Rattle.report.specs.Report.{report};

use report::report::report;

pub(crate) const ENOUGH: usize = 24576;

// The part of the buffer that holds the text.
pub(crate) fn whole_report<'a>(log: &[u8], buffer: &'a mut [u8; ENOUGH]) -> &'a [u8]
    ensures { result.now ≡ report log.now }
{
    let length = report(log, buffer);
    &buffer[..length]
}
