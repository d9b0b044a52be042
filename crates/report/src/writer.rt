// Numbers in decimal.
ghost use Rattle.basics.specs.Writers.{Writes};
ghost use Rattle.report.specs.Decimal.{decimal};

use basics::writer::Writer;

// x in decimal: all its digits but the last, then the last.
pub(crate) fn put_number(w: &mut Writer, x: usize)
    ensures { Writes 20 (decimal x) w.old w.new }
{
    if 10 <= x {
        put_number(w, x / 10);
    }
    w.byte(b'0' + (x % 10) as u8);
}
