// The commands of a script: tag, two-byte length and body, as a field of a log.
ghost use Rattle.std.specs.Prelude.{length};
ghost use Rattle.std.specs.Iterator.{at_most};

// Command after command; a last one whose body is cut short is none.
#[derive(Drop)]
pub(crate) struct Commands<'a>(pub(crate) &'a [u8]);

impl<'a> Iterator for Commands<'a> {
    type Item = (u8, &'a [u8]);

    ghost remaining = { λ s. at_most (length s.0.now) };

    fn next(&mut self) -> Option<(u8, &'a [u8])> {
        let [tag, high, low, ..] = self.0 else {
            return None;
        };
        let size = 3 + usize::from(u16::from_be_bytes([*high, *low]));
        let (command, rest) = self.0.split_at_checked(size)?;
        self.0 = rest;
        Some((*tag, &command[3..]))
    }
}
