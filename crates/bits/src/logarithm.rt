// R of document 01.
ghost use Rattle.std.specs.Prelude.{◌≡◌};
ghost use Rattle.bits.specs.Log.{ceil_log2};

// ceil(log2 n), the least r with n ≤ 2^r: 0 for 0 and 1.
#[tactic(auto, using(crate::proofs::Log::log_rule))]
pub fn ceil_log2(n: u8) -> u8
    ensures { result ≡ ceil_log2 n }
{
    8 - n.saturating_sub(1).leading_zeros() as u8
}
