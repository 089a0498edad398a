// The calls on a ring that is ready for them: a well-formed record, tables that fit and, for an arrival, room in the counts. Each is made
// over its words in place and writes those that it changes.
#![tactic(auto)]

mod arriving;
mod codes;
mod departing;
mod ticking;

pub use arriving::arrive;
pub use departing::depart;
pub use ticking::tick;
