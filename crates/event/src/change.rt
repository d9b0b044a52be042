// What an accepted event makes of the entries that it looks at: the entries to store.
use entry::entry::{Ballot, Station};

#[derive(Clone, Copy)]
pub struct Change {
    pub own: Station,
    pub ballot: Ballot,
}
