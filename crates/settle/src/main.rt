// Reads a log from standard input and prints the report of it. Where a read or a write fails, it says so on standard error.
#![tactic(auto)]

mod whole;

use crate::whole::{ENOUGH, whole_report};
use streams::input::read_full;

fn main(rt: HostRuntime) {
    // One byte more than the longest log, to see that there is more.
    let mut log = [0u8; 65537];
    let Ok(length) = read_full(&mut rt.stdin(), &mut log) else {
        let _ = rt.eprint("settle: cannot read the log\n");
        return;
    };
    let mut buffer = [0u8; ENOUGH];
    let text = whole_report(&log[..length], &mut buffer);
    if rt.write_all(text).is_err() {
        let _ = rt.eprint("settle: cannot write the report\n");
    }
}
