// CLOSE as other languages call it, with the log of the settlement: numbers and byte slices only. It is compiled by itself: beside RUN in one
// archive, both would share code that the compiler then does not inline.
#![tactic(auto)]

ghost use Rattle.std.specs.Prelude.{◌≡◌, ◌*◌, length};
ghost use Rattle.basics.specs.Refusals.{number_of};
ghost use Rattle.closing_exports.specs.Exports.{close_answer, close_after};

use basics::refusal::Refusal;
use close::close::close;
use logs::run::run;

// The number, and no byte.
fn turned_away(why: Refusal) -> u64
    ensures { result ≡ number_of why * 4294967296 }
{
    (why.number() as u64) * 4294967296
}

// RUN, and the closing log of the settlement that it plays to: 4,294,967,296 times the number, and the count.
#[unsafe(no_mangle)]
pub extern "C" fn dagmuize_close(log: &[u8], limit: usize, preferred: u8, out: &mut [u8]) -> u64
    ensures value { result ≡ close_answer log.now limit preferred (length out.old) }
    ensures out_after { out.new ≡ close_after log.now limit preferred out.old }
{
    let played = run(log, limit);
    match played.status {
        Ok(()) => match close(played.settlement, preferred, out) {
            Ok(closing) => closing.count as u64,
            Err(refused) => turned_away(refused.why),
        },
        Err(why) => turned_away(why),
    }
}
