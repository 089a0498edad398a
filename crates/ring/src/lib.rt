// One queue of packet records over two lent tables, as a ring, shedding load by PIE.
#![tactic(auto)]

use pie::{Backlog, Pie};
use refusals::Refusal;
use units::{Bytes, Micros};

mod activity;
mod arriving;
mod departing;
mod fresh;
mod ticking;
mod well_formed;

#[derive(Clone, Copy)]
pub struct Settings {
    pub target: Micros,
    pub buffer: Bytes,
    pub slots: u64,
    // 0: plain, 1: calm. A number, since C's record may hold any, and another one is refused.
    pub profile: u64,
}

#[derive(Clone, Copy)]
pub struct State {
    pub settings: Settings,
    pub clock: Micros,
    // The clock of the last tick.
    pub last: Micros,
    pub pie: Pie,
    pub backlog: Backlog,
    // The place of the head in the tables.
    pub first: u64,
    // One count for each kind of verdict, in the order of `Verdict`.
    pub verdicts: [u64; 5],
    pub active: bool,
}

// What `fresh` returns: where it is refused, the all-zero record. No `Result<State, Refusal>`: the clauses of `fresh` and of
// `obikuteru_fresh` say which record a refused call gives.
#[derive(Clone, Copy)]
pub struct Returned {
    pub accepted: Result<(), Refusal>,
    pub state: State,
}
