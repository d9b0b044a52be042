// CLOSE on records that the input gives as images, made-up ones too: case after case, and what it answers to each. Its input and what it has to
// write are said by a reading of document 02 in conformance/.
#![tactic(auto)]

mod case;

use crate::case::{CASE, case};
use std::io;
use std::io::Write;
use streams::input::read_full;

// What is left after the last whole case is not read.
fn each<W: Write>(to: &mut W, cases: &[u8]) -> io::Result<()> {
    for bytes in cases.chunks_exact(CASE) {
        case(to, bytes)?;
    }
    Ok(())
}

fn main(rt: HostRuntime) -> io::Result<()> {
    let mut bytes = [0u8; 65536];
    let count = read_full(&mut rt.stdin(), &mut bytes)?;
    each(&mut rt.stdout(), &bytes[..count])
}
