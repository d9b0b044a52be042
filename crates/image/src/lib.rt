// A settlement as bytes that the caller keeps: its entries read off them and stored into them. Every public function is total, and equals a
// definition of specs/.

#![tactic(auto)]

pub mod ballot;
pub mod layout;
pub mod station;
pub mod unread;
