// The calls on 64 flows whose record is known to be well formed, over words that are lent: the single entries and the burst share them.
// The flows' counts are lent beside the words, for the choosing, and kept true.
// The arrays are lent one by one, as C lends them: a struct of references would have to say in each contract that it keeps every one.
#![tactic(auto)]

mod calling;
mod checking;
mod entering;
mod picking;
mod receiving;
mod serving;
mod ticking;
mod writing;

pub use entering::{arrive, depart, update};
