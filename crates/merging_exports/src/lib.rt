// MERGE as other languages call it: numbers and byte slices only. It is compiled by itself, as CLOSE is: beside RUN in one archive, both would share
// code that the compiler then does not inline.
#![tactic(auto)]

ghost use Rattle.std.specs.Prelude.{◌≡◌, length};
ghost use Rattle.merging.specs.Merge.{merge_buffer};
ghost use Rattle.merging_exports.specs.Exports.{merge_answer};

use merge::merge::merge;

// The number in the highest byte, and the count in the seven below it.
#[tactic(auto, unfolding(crate::specs::Exports::merge_answer))]
#[unsafe(no_mangle)]
pub extern "C" fn dagmuize_merge(first: &[u8], second: &[u8], out: &mut [u8]) -> u64
    ensures value { result ≡ merge_answer first.now second.now (length out.old) }
    ensures out_after { out.new ≡ merge_buffer first.now second.now out.old }
{
    match merge(first, second, out) {
        Ok(count) => (count as u64) % 72057594037927936,
        Err(refusal) => u64::from(refusal.number()) * 72057594037927936,
    }
}
