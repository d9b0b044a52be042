// One event on the entries that it looks at: two station entries and a ballot entry. Here is what it means (specs/) and where it looks; the crate
// `change` plays it. Every public function is total, and equals a definition of specs/.

#![tactic(auto)]

pub mod change;
pub mod event;
pub mod place;
pub mod view;
