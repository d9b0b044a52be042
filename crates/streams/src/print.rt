// Numbers, and bytes as hexadecimal digits, to any writer.
ghost use Rattle.std.specs.Prelude.{◌≡◌, ◌≤◌, ◌<◌, length, decimal, OnOk};
ghost use Rattle.std.specs.Io.KnownBytes.{Appends};
ghost use Rattle.streams.specs.Hex.{digit, hex};

use std::io;
use std::io::Write;

pub fn number<W: Write>(out: &mut W, n: u64) -> io::Result<()>
    ensures { OnOk result (Appends (W.contents out.old) (W.contents out.new) (decimal n)) }
{
    write!(out, "{n}")
}

// The code of a digit below 16.
fn digit(d: u8) -> u8
    requires { d < 16 }
    ensures { result ≡ digit d }
{
    if d < 10 { b'0' + d } else { 87 + d }
}

// How many bytes are written at once.
const FEW: usize = 8;

fn few<W: Write>(out: &mut W, part: &[u8]) -> io::Result<()>
    requires { length part.now ≤ 8 }
    ensures { OnOk result (Appends (W.contents out.old) (W.contents out.new) (hex part.now)) }
{
    let mut digits = [0u8; 2 * FEW];
    for (i, x) in part.iter().enumerate() {
        digits[2 * i] = digit(*x / 16);
        digits[2 * i + 1] = digit(*x % 16);
    }
    out.write_all(&digits[..2 * part.len()])
}

// Each byte as two digits; a few at a time, which is quicker than each by itself.
pub fn hex<W: Write>(out: &mut W, s: &[u8]) -> io::Result<()>
    ensures { OnOk result (Appends (W.contents out.old) (W.contents out.new) (hex s.now)) }
{
    for part in s.chunks(FEW) {
        few(out, part)?;
    }
    Ok(())
}
