// The events, LOOK and LOOK at a ballot on an image that the caller lends: only the entries that an event looks at are read, and only two are stored. Every public
// function is total, and equals a definition of specs/.

#![tactic(auto)]

pub mod events;
pub mod fault;
pub mod look;
pub mod look_all;
pub mod look_ballot;
pub mod place;
pub mod play;
