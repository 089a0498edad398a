// The ring's state as words that are lent (include/obikuteru.h): read, written whole, and written where a call changes it.
#![tactic(auto)]

mod layout;
mod reading;
mod writing;

pub use layout::{
    ACCUMULATED, ACTIVE, BUFFER, BYTES, CLOCK, COUNT, DROPPED_BYTES, DROPPED_EARLY, DROPPED_SLOTS,
    ENQUEUED, FIRST, LAST, MARKED, OLD, PIE, PROB, PROFILE, SLOTS, TARGET, VERDICTS,
};
pub use reading::decode;
pub use writing::{encode, write_arrival, write_departure, write_restart};
