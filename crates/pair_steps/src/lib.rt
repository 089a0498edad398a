// Calls on two queues whose records are known to be well formed, over words that are lent: the single entries and the burst share them.
// Each reads a word where it needs it and writes those that it changes. Records and tables are parameters of their own, as C lends each by
// itself: a struct of these loans would be built and taken apart at every call.
#![tactic(auto)]

mod arriving;
mod checking;
mod coded;
mod deciding;
mod departing;
mod ticking;

pub use arriving::arrival;
pub use checking::{check_clock, check_size, check_tables};
pub use coded::{arrive, depart, tick};
pub use departing::departure;
pub use ticking::update_probability;
