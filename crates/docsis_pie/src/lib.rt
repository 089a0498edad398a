// DOCSIS-PIE (RFC 8034, Appendix A) on numbers alone. It knows no tables, no refusals and no clock but what it is told.
#![tactic(auto)]

use pie::Verdict;
use units::{Micros, Prob};

mod constants;
mod decision;
mod probability;
mod queueing_delay;
mod update;

// Inactive, quiescent or active. It is no enum, since C lends a record in which it may be any number.
#[derive(Clone, Copy, PartialEq, Eq)]
pub struct Activity(pub u64);

impl Activity {
    pub const INACTIVE: Activity = Activity(0);

    pub const QUIESCENT: Activity = Activity(1);

    pub const ACTIVE: Activity = Activity(2);
}

// The activity, and how long a quiescent flow has been quiet. C's record may hold a time in any activity, for `well_formed` to refuse: so
// they are two fields, and no enum.
#[derive(Clone, Copy)]
pub struct Phase {
    pub activity: Activity,
    pub reset: Micros,
}

// The drop probability, the probability accumulated since the last drop, the delay at the last tick, the burst allowance and the phase.
#[derive(Clone, Copy)]
pub struct DocsisPie {
    pub prob: Prob,
    pub accumulated: Prob,
    pub old: Micros,
    pub allowance: Micros,
    pub phase: Phase,
}

// What the arrival rules decide, and the record after them.
#[derive(Clone, Copy)]
pub struct Decided {
    pub verdict: Verdict,
    pub pie: DocsisPie,
}

pub use constants::{
    DEFAULT_TARGET, FULL_ALLOWANCE, HIGH, LOW, MOST_PROB, PERIOD, RESET_TIMEOUT, SMALL_QUEUE,
};
pub use decision::{below_third, early, is_low, lightly_loaded, limit_sum, scaled, small, sum};
pub use pie::in_allowance;
pub use probability::next_prob;
pub use queueing_delay::delay;
pub use update::{next_allowance, quiet, timed_out};
