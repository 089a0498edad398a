// Deficit round robin over 64 flows: which flow is served next. Both lists of flows stand in one ring of 64 places, the old list before the
// new one. A deficit is kept as a number, 65,535 above the deficit itself.
#![tactic(auto)]

mod choosing;
mod entering;
mod passing;
mod testing;

// What a deficit gains at a time.
pub(crate) const QUANTUM: u32 = 1_514;
// How the deficit 0 is kept.
pub(crate) const ZERO_DEFICIT: u32 = 65_535;
// The highest deficit, that of a flow which enters: one quantum.
pub(crate) const ONE_QUANTUM: u32 = 67_049;
// One more than the most moves that lead to a flow with a packet.
pub(crate) const MOST_LOOKS: usize = 2_880;

// Where the lists stand: the place of the first flow, how many flows are in the old list, and how many in both.
// No invariant: a C caller's words are read into it, and `fits` tests them. Order and deficits stand apart from it: C lends each by itself.
#[derive(Clone, Copy)]
pub struct Lists {
    pub first: usize,
    pub old: usize,
    pub listed: usize,
}

pub use choosing::{charge, choose};
pub use entering::{enter, is_listed};
pub use passing::pass;
pub use testing::fits;
