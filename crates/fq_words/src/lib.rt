// The record of 64 flows as words: nineteen of what all flows have in common, 64 of the order of the lists, twelve of each flow, and 64
// deficits. Decoded and encoded, tested as a whole, and made fresh.
#![tactic(auto)]

use fq_state::Common;
use refusals::Refusal;
use schedule::Lists;

mod layout;
mod making;
mod reading;
mod records;
mod testing;

// What a fresh call gives. The record stands beside the answer, since `fresh`'s equation names the all-zero one of a refused call.
#[derive(Clone, Copy)]
pub struct Made {
    pub accepted: Result<(), Refusal>,
    pub common: Common,
    pub lists: Lists,
}

pub use layout::{
    BUFFER, BYTES, CLOCK, COUNT, ENQUEUED, FIRST, FREED, LAST, LISTED, OLD, SALT, SLOTS, SPARE,
    TARGET, USED,
};
pub use making::fresh;
pub use reading::{flow_at, set_flow};
pub use records::{decode, decode_lists, encode, numbered};
pub use testing::fits;
