// The text of a settlement, and how it goes into a lent buffer.
ghost use Rattle.std.specs.Prelude.{◌≡◌};
ghost use Rattle.settlement.specs.Fault.{fault};
ghost use Rattle.basics.specs.Written.{Wrote};
ghost use Rattle.basics.specs.Writers.{Writes};
ghost use Rattle.report.specs.Text.{text};
ghost use Rattle.report.specs.Written.{Printed};

use crate::line::{put_first_line, put_station_line};
use crate::progress::Progress;
use basics::writer::Writer;
use settlement::fault::faulty;
use settlement::record::Settlement;

fn put_text(w: &mut Writer, r: &Settlement, faulty: bool, progress: Progress)
    requires { faulty ≡ fault r.now }
    ensures { Writes 23130 (text r.now progress.events progress.taken progress.status) w.old w.new }
{
    put_first_line(w, r, progress);
    for s in 0..r.count {
        put_station_line(w, r, faulty, s);
    }
}

// The text from the start of the buffer on, as far as it reaches, and the place after it.
fn text_from_start(out: &mut [u8], r: &Settlement, faulty: bool, progress: Progress) -> usize
    requires { faulty ≡ fault r.now }
    ensures { Wrote 23130 out.old 0 (text r.now progress.events progress.taken progress.status) out.new result }
{
    let mut w = Writer { out, at: 0 };
    put_text(&mut w, r, faulty, progress);
    w.at
}

// The text at the start of the buffer, and its length; where it does not fit, nothing and 0. The record is tested once.
pub fn report_of(r: &Settlement, progress: Progress, out: &mut [u8]) -> usize
    ensures { Printed (text r.now progress.events progress.taken progress.status) out.old out.new result }
{
    let faulty = faulty(r);
    let need = text_from_start(&mut [], r, faulty, progress);
    if need <= out.len() {
        return text_from_start(out, r, faulty, progress);
    }
    0
}
