// A flow's record as words and its counts in the lent table, for the modem's C interface and its bursts.
#![tactic(auto)]

mod counting;
mod layout;
mod records;
mod testing;

pub use counting::raise;
pub use layout::{
    ACCUMULATED, ACTIVITY, ALLOWANCE, BUFFER, BYTES, CLOCK, COUNT, FIRST, LAST, OLD, PEAK, PROB,
    RESET, SLOTS, SUSTAINED, TARGET,
};
pub use records::{decode, encode, write_arrival, write_departure};
pub use testing::record_fits;
