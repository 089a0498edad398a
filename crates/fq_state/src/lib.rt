// The record of 64 flows over one pair of tables: what all flows have in common, a flow, and the tests of each.
#![tactic(auto)]

use pie::Backlog;
use store::Store;
use units::{Bytes, Micros};

mod making;
mod parts;
mod testing;

#[derive(Clone, Copy)]
pub struct Settings {
    pub target: Micros,
    pub buffer: Bytes,
    pub slots: u64,
    // What is added to the hash of a packet's key, below 2^32.
    pub salt: u64,
}

// What all flows have in common.
#[derive(Clone, Copy)]
pub struct Common {
    pub settings: Settings,
    pub clock: Micros,
    // The clock of the last tick.
    pub last: Micros,
    // All flows' packets and bytes.
    pub backlog: Backlog,
    pub store: Store,
    // One count for each kind of verdict, in the order of `Verdict`.
    pub verdicts: [u64; 5],
}

// A flow. Twelve plain numbers, not the three parts: definitions (`flow_with`, `fields_of`) and the theorems of fq_guarantees name them.
#[derive(Clone, Copy)]
pub struct Flow {
    pub prob: u64,
    pub old: u64,
    pub allowance: u64,
    pub accumulated: u64,
    pub average: u64,
    // Not 0: a measurement runs. A number, since a word that is neither 0 nor 1 stays as it was lent (`flag_word`).
    pub measuring: u64,
    pub start: u64,
    pub counted: u64,
    pub count: u64,
    pub bytes: u64,
    // The places of its first and last packet in the tables.
    pub head: u64,
    pub tail: u64,
}

pub use making::empty;
