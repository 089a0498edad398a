// The records of two queues, intercom and passengers, over one pair of tables: their tests and the fresh ones.
#![tactic(auto)]

ghost use Rattle.std.specs.Prelude.{◌≡◌, cond};
ghost use Rattle.pair_rules.specs.declared.Which.TheVariants.{Intercom, Passengers};

use pie::{Backlog, Pie};
use refusals::Refusal;
use store::{Ends, Store};
use units::{Bytes, Micros};

mod making;
mod sharing;
mod testing;

#[derive(Clone, Copy)]
pub enum Which {
    Intercom,
    Passengers,
}

// C names the called queue by whether it is the second.
impl From<bool> for Which {
    ghost from_gives = { λ second which. which ≡ cond second Passengers Intercom };

    fn from(second: bool) -> Which {
        if second {
            Which::Passengers
        } else {
            Which::Intercom
        }
    }
}

#[derive(Clone, Copy)]
pub struct Settings {
    pub target: Micros,
    pub buffer: Bytes,
}

// A queue.
#[derive(Clone, Copy)]
pub struct State {
    pub settings: Settings,
    pub clock: Micros,
    // The clock of the last tick.
    pub last: Micros,
    pub pie: Pie,
    pub backlog: Backlog,
    // The places of the first and the last packet in the tables.
    pub ends: Ends,
    // One count for each kind of verdict, in the order of `Verdict`.
    pub verdicts: [u64; 5],
}

// The slots that only this queue may use.
#[derive(Clone, Copy)]
pub struct Reserves {
    pub intercom: u64,
    pub passengers: u64,
}

// What both queues share.
#[derive(Clone, Copy)]
pub struct Shared {
    pub slots: u64,
    pub reserves: Reserves,
    pub store: Store,
}

#[derive(Clone, Copy)]
pub struct Pair {
    pub shared: Shared,
    pub intercom: State,
    pub passengers: State,
}

// What `fresh` is told of a queue.
#[derive(Clone, Copy)]
pub struct Setup {
    pub settings: Settings,
    pub reserve: u64,
    pub clock: Micros,
}

// What `fresh` returns: of a refusal the records of all zeros.
#[derive(Clone, Copy)]
pub struct Made {
    pub accepted: Result<(), Refusal>,
    pub pair: Pair,
}

pub use making::fresh;
pub use testing::well_formed;
