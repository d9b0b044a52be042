// Binary digits of numbers: length, ceil(log2 n), one bit, a changed bit, agreement of low bits, and masks of stations.
// Every function is total, and equals a definition of specs/.

#![tactic(auto)]

pub mod logarithm;
pub mod mask;
pub mod word;
