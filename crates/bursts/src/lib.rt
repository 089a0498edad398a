// Lists of calls in one entry. What a burst is, over any kind, is defined in specs/; that it is the list of its calls is proved in proofs/.
// Here are the function that answers the calls of any kind of queue, the numbers of calls and answers, and the room for a burst's arrivals.
#![tactic(auto)]

mod numbers;
mod queue;
mod room;

pub use numbers::{REFUSED_CALL, clock_of, wide, word};
pub use queue::{Queue, answer_each};
pub use room::has_room;
