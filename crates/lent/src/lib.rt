// OPEN, the events and both LOOKs on a lent settlement: the caller lends one settlement to each event and finds it advanced there.

#![tactic(auto)]

pub mod events;
pub mod opening;
