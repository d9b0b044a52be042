// Bytes stored into a lent buffer, and read off one: past the end nothing is stored, and 0 is read.
ghost use Rattle.std.specs.Prelude.{◌≡◌, set};
ghost use Rattle.basics.specs.Bytes.{byte, four_of, four_from, four_set};

// b at the place i. Past the end nothing is stored.
pub fn set_byte(part: &mut [u8], i: usize, b: u8)
    ensures { part.new ≡ set part.old i b }
{
    if i < part.len() {
        part[i] = b;
    }
}

// The byte at the place i.
pub fn byte_at(part: &[u8], i: usize) -> u8
    ensures { result ≡ byte part.now i }
{
    part.get(i).copied().unwrap_or(0)
}

// The number in four bytes, high byte first.
pub fn four_of(x: u8, y: u8, z: u8, w: u8) -> u32
    ensures { result ≡ four_of x y z w }
{
    u32::from_be_bytes([x, y, z, w])
}

// The number in the four bytes from the place i on.
pub fn four_at(part: &[u8], i: u8) -> u32
    ensures { result ≡ four_from part.now i }
{
    let at = i as usize;
    let x = byte_at(part, at);
    let y = byte_at(part, at + 1);
    let z = byte_at(part, at + 2);
    let w = byte_at(part, at + 3);
    four_of(x, y, z, w)
}

// The four bytes of a number from the place i on.
pub fn set_four(part: &mut [u8], i: u8, v: u32)
    ensures { part.new ≡ four_set part.old i v }
{
    let at = i as usize;
    let [x, y, z, w] = v.to_be_bytes();
    set_byte(part, at, x);
    set_byte(part, at + 1, y);
    set_byte(part, at + 2, z);
    set_byte(part, at + 3, w);
}
