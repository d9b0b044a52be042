// Where things stand in an image.
use entry::entry::{BALLOT_ENTRIES, STATION_ENTRIES};

// The first byte. Another layout gets another one.
pub const VERSION: u8 = 3;

pub const STATION_WIDTH: usize = 20;

pub const VOTERS_WIDTH: usize = 8;

pub const MARKS_WIDTH: usize = 2;

pub const STATIONS: usize = 3;

pub const VOTERS: usize = STATIONS + STATION_WIDTH * STATION_ENTRIES as usize;

pub const MARKS: usize = VOTERS + VOTERS_WIDTH * BALLOT_ENTRIES;

pub const IMAGE_BYTES: usize = MARKS + MARKS_WIDTH * BALLOT_ENTRIES;

// As many bytes as an image has.
pub type Image = [u8; IMAGE_BYTES];
