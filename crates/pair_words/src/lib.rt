// The records of two queues as words that are lent (include/obikuteru.h), and their test.
#![tactic(auto)]

mod layout;
mod records;
mod testing;

pub use layout::{
    ACCUMULATED, BUFFER, BYTES, CLOCK, COUNT, DROPPED_BYTES, DROPPED_EARLY, DROPPED_SLOTS,
    ENQUEUED, FREED, HEAD, INTERCOM, LAST, MARKED, PASSENGERS, PIE, SLOTS, SPARE, TAIL, TARGET,
    USED, VERDICTS,
};
pub use records::{encode, encode_shared, shared_facing};
pub use testing::records_fit;
