// The refusals of document 01: their numbers, and the tests that ask for no more than a backlog or five counts.
#![tactic(auto)]

mod checking;
mod counting;
mod heads;
mod numbering;

pub use checking::{check_clock, check_head, check_size, check_tables};
pub use counting::{counts_fit, counts_full, room_left};
pub use heads::wrong_head;
pub use numbering::{code, refused};

// One case for each refusal number, in order, from 1. A call answers `Result`, and a refused call changes nothing.
#[derive(Clone, Copy, PartialEq, Eq)]
pub enum Refusal {
    Settings = 1,
    Malformed,
    Tables,
    Clock,
    TooSoon,
    Empty,
    Size,
    Counts,
    Head,
}

// The packet that a departure hands out.
#[derive(Clone, Copy, PartialEq, Eq)]
pub struct Packet {
    pub handle: u32,
    pub size: u32,
}
