// The calls over a flow's words: on a record that was tested (arriving, departing, ticking), and on any (single).
#![tactic(auto)]

mod arriving;
mod departing;
mod single;
mod ticking;

pub use arriving::arrive;
pub use departing::depart;
pub use single::{lent_arrival, lent_departure, lent_tick};
pub use ticking::tick;
