// The queues of a cable modem's sixteen service flows. Their verdict counts are one table, which goes over and back with each call.
#![tactic(auto)]

mod by_value;
mod calls;
mod counting;
mod numbering;

use refusals::Refusal;

// Why a call is refused: there is no such flow, or what the flow's own call answers.
#[derive(Clone, Copy, PartialEq, Eq)]
pub enum FlowRefusal {
    NoFlow,
    Call(Refusal),
}

// What a call returns: its answer, and the counts of all sixteen flows. No answer alone: document 01 names the form (Q-5.2).
#[derive(Clone, Copy)]
pub struct Counted<A> {
    pub answer: A,
    pub counts: [[u64; 5]; 16],
}

pub use by_value::{arrival, departure, fresh, tick};
pub use calls::{arrival_lent, departure_lent, fresh_lent, row_of, tick_lent};
