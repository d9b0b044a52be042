// The text that the program `settle` prints (document 01, "The program settle"), written into a buffer that the caller lends.
// Every public function is total, and equals a definition of specs/.

#![tactic(auto)]

mod line;
pub mod progress;
pub mod report;
pub mod text;
mod writer;
