// One service flow of a cable modem: packet records over two lent tables, as a ring, shedding load by DOCSIS-PIE.
#![tactic(auto)]

use docsis_pie::DocsisPie;
use pie::Backlog;
use units::{Bytes, BytesPerSecond, Micros};

mod arriving;
mod departing;
mod fresh;
mod ticking;
mod well_formed;

#[derive(Clone, Copy)]
pub struct Settings {
    pub target: Micros,
    pub buffer: Bytes,
    pub slots: u64,
    pub peak: BytesPerSecond,
    pub sustained: BytesPerSecond,
}

// Its verdict counts are not in it: a call is given the flow's row of them, as C lends one table of all flows.
#[derive(Clone, Copy)]
pub struct State {
    pub settings: Settings,
    pub clock: Micros,
    // The clock of the last tick.
    pub last: Micros,
    pub pie: DocsisPie,
    pub backlog: Backlog,
    // The place of the head in the tables.
    pub first: u64,
}

// What a fresh call returns: a refused one the all-zero record. `R` says why it was refused.
// No `Result<State, R>`: the clauses of `fresh` and of `obikuteru_modem_fresh` say which record a refused call gives.
#[derive(Clone, Copy)]
pub struct Returned<R> {
    pub accepted: Result<(), R>,
    pub state: State,
}
