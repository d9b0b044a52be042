// What several crates use, and none of them owns: numbers of refusals, and bytes stored into a lent buffer.

#![tactic(auto)]

pub mod buffer;
pub mod refusal;
pub mod writer;
