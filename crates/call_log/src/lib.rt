// A log of accepted calls over lent bytes: a writer and a reader.
#![tactic(auto)]

mod faults;
mod reading;
mod refusing;
mod turns;
mod whole;
mod writing;

pub use faults::{faulty, header_refused};
pub use reading::{note, place_after, read_at, settings};
pub use turns::{moved, next, start};
pub use whole::check;
pub use writing::{add, add_call, begin};

// The number of each refusal.
#[derive(Clone, Copy, PartialEq, Eq)]
pub enum Refusal {
    Trailer = 11,
    Settings = 12,
    Fault = 13,
    Room = 14,
}

// The offset of the first record and the number of records, as in the trailer.
#[derive(Clone, Copy, PartialEq, Eq)]
pub struct Writer {
    pub offset: u32,
    pub count: u32,
}

// What `begin` returns. A refused one hands on a state too, `zero_writer` of its definition, so this is no Result of a state.
#[derive(Clone, Copy, PartialEq, Eq)]
pub struct Written {
    pub accepted: Result<(), Refusal>,
    pub writer: Writer,
}

#[derive(Clone, Copy)]
pub struct Reader<'a> {
    pub log: &'a [u8],
    // The next record's number.
    pub place: u64,
}
