// A settlement by value: the record, OPEN, the five events, LOOK, and LOOK at a ballot. Every public function is total, and equals a definition of specs/.

#![tactic(auto)]

pub mod events;
pub mod fault;
pub mod look;
pub mod look_ballot;
pub mod open;
pub mod play;
pub mod record;
