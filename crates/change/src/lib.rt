// One event played on the entries that it looks at: its refusal, or the entries after it. No record is here, so nothing large is handed around.
// Every public function is total, and equals a definition of the crate `event`.

#![tactic(auto)]

pub mod change;
pub mod seek;
pub mod step;
mod tests;
