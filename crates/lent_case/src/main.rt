// Plays a script on one settlement that it lends, and writes a line for each call: what was called, and the answer.
// A script is written as a log is, tag, two-byte length and body, with more tags than a log has (`command.rt`): so records may be made up
// entry by entry, and BODY, REST, READ, RUN, lengths and comparisons asked. The same scripts are answered by a reading of document 01 in conformance/.
#![tactic(auto)]

mod command;
mod made_up;
mod parts;
mod print;
mod script;
mod settled;
mod show;

use crate::command::command;
use crate::script::Commands;
use settlement::open::blank;
use std::io;
use std::io::Write;
use streams::input::read_full;

fn play<W: Write>(out: &mut W, script: &[u8]) -> io::Result<()> {
    let mut r = blank();
    for (tag, body) in Commands(script) {
        command(out, tag, body, &mut r)?;
    }
    Ok(())
}

fn main(rt: HostRuntime) -> io::Result<()> {
    let mut bytes = [0u8; 65536];
    let count = read_full(&mut rt.stdin(), &mut bytes)?;
    play(&mut rt.stdout(), &bytes[..count])
}
