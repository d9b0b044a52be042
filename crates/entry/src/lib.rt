// The entries of a settlement record: stations and ballots, what they say, and how an event changes one.
// Every public function is total, and equals a definition of specs/.

#![tactic(auto)]

pub mod changed;
pub mod entry;
pub mod reading;
pub mod stage;
