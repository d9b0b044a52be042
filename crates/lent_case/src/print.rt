// Numbers and parts of slices on standard output. The notes have the words: a program of many words takes long to check.
ghost use Rattle.std.specs.Prelude.{◌≡◌, ◌++◌, length, codes, decimal, OnOk};
ghost use Rattle.std.specs.Io.KnownBytes.{Appends};
ghost use Rattle.std.specs.List.{flat_map};
ghost use Rattle.streams.specs.Hex.{hex};

use std::io;
use std::io::Write;
use streams::print::hex;

// A number, and a blank before it.
pub(crate) fn number<W: Write>(out: &mut W, n: u64) -> io::Result<()>
    ensures { OnOk result (Appends (W.contents out.old) (W.contents out.new) (codes " " ++ decimal n)) }
{
    out.write_all(b" ")?;
    streams::print::number(out, n)
}

pub(crate) fn numbers<W: Write>(out: &mut W, numbers: &[u64]) -> io::Result<()>
    ensures { OnOk result (Appends (W.contents out.old) (W.contents out.new) (flat_map (λ n. codes " " ++ decimal n) numbers.now)) }
{
    for n in numbers {
        number(out, *n)?;
    }
    Ok(())
}

// A part of a slice: how many bytes, and which.
pub(crate) fn part<W: Write>(out: &mut W, s: &[u8]) -> io::Result<()>
    ensures { OnOk result (Appends (W.contents out.old) (W.contents out.new)
        (codes " " ++ decimal (length s.now) ++ codes " " ++ hex s.now)) }
{
    number(out, s.len() as u64)?;
    out.write_all(b" ")?;
    hex(out, s)
}
