// Slots of two lent tables, linked into chains of packets: a store hands slots out and takes them back. A word of the table of sizes holds
// a size in its low 16 bits and a link, the place of another slot, above. Counts say where a chain ends; links never do.
#![tactic(auto)]

mod following;
mod putting;
mod taking;

// Places from `used` on were never taken. `spare` slots were freed; they hang together by their links, the first of them at `freed`.
// No Option: C's record has a word `freed` where none is spare too, and `well_formed` tests it there.
#[derive(Clone, Copy)]
pub struct Store {
    pub used: u64,
    pub freed: u64,
    pub spare: u64,
}

// The places of a chain's first and last packet. Its count stands beside them; where it is 0 they say nothing.
// No Option: C's record has both words there too, and `well_formed` tests them.
#[derive(Clone, Copy)]
pub struct Ends {
    pub head: u64,
    pub tail: u64,
}

pub use following::{follow, leads_nowhere, size_at};
pub use putting::write_packet;
pub use taking::write_freed;
