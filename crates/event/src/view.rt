// What an event looks at.
use entry::entry::{Ballot, Station};

// How many stations there are and the rule; the entry of its own station, the entry of the station beside it,
// and the entry of its ballot.
#[derive(Clone, Copy)]
pub struct View {
    pub count: u8,
    pub rule: u8,
    pub own: Station,
    pub beside: Station,
    pub ballot: Ballot,
}
