// What the programs of this repository share: input read into a fixed buffer, and numbers and bytes written to any writer.
#![tactic(auto)]

pub mod input;
pub mod print;
