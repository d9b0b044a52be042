// A whole record read off an image, and stored as one. Every public function is total, and equals a definition of specs/.

#![tactic(auto)]

pub mod record;
pub mod whole;
