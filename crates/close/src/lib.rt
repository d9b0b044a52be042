// CLOSE: the log that brings every live, claimed station to its decision (document 02, A.3), written into a buffer that the caller lends.
// Every public function is total, and equals a definition of the crate `closing`.

#![tactic(auto)]

mod bound;
pub mod close;
mod closer;
mod turn;
