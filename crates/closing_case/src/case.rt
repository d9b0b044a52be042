// One case: a line of words, which is written as it stands; the image of a record; the preferred bit; and the room in two bytes.
ghost use Rattle.std.specs.Prelude.{◌≡◌, ◌++◌, length, codes, OnOk};
ghost use Rattle.std.specs.Io.KnownBytes.{Appends};
ghost use Rattle.streams.specs.Hex.{hex};

use close::close::close;
use image::layout::IMAGE_BYTES;
use settlement::record::Settlement;
use std::io;
use std::io::Write;
use streams::print::{hex, number};
use whole_image::record::{read_record, store};

const WORDS: usize = 80;

const PREFERRED: usize = WORDS + IMAGE_BYTES;

const ROOM: usize = PREFERRED + 1;

pub(crate) const CASE: usize = ROOM + 2;

// The bytes of the buffer before it is lent: no field of a closing log has such a one.
const UNTOUCHED: u8 = 0xee;

fn line<W: Write>(to: &mut W, s: &[u8]) -> io::Result<()>
    ensures { OnOk result (Appends (W.contents to.old) (W.contents to.new) (hex s.now ++ codes "\n")) }
{
    hex(to, s)?;
    to.write_all(b"\n")
}

// Number and count, every byte of the buffer, and the image of the settlement after.
fn closes<W: Write>(to: &mut W, r: Settlement, preferred: u8, out: &mut [u8]) -> io::Result<()> {
    let (told, count, after) = match close(r, preferred, out) {
        Ok(closing) => (0, closing.count, closing.settlement),
        Err(refused) => (refused.why.number(), 0, refused.settlement),
    };
    number(to, told.into())?;
    to.write_all(b" ")?;
    number(to, count as u64)?;
    to.write_all(b"\n")?;
    line(to, out)?;
    let mut image = [0u8; IMAGE_BYTES];
    store(&mut image, &after);
    line(to, &image)
}

pub(crate) fn case<W: Write>(to: &mut W, bytes: &[u8]) -> io::Result<()>
    requires { length bytes.now ≡ 1366 }
{
    to.write_all(&bytes[0..WORDS])?;
    let r = match read_record(&bytes[WORDS..PREFERRED]) {
        Ok(r) => r,
        Err(refused) => refused.settlement,
    };
    let mut out = [UNTOUCHED; 65536];
    let room = usize::from(u16::from_be_bytes([bytes[ROOM], bytes[ROOM + 1]]));
    closes(to, r, bytes[PREFERRED], &mut out[..room])
}
