// Two fresh queues and what they share.
ghost use Rattle.std.specs.Prelude.{◌≡◌, cond, Ok, Err};
ghost use Rattle.laws.specs.Tests.{all};
ghost use Rattle.pair_rules.specs.Answer.{fresh_reply};
ghost use Rattle.pair_rules.specs.Fresh.{empty_state, fresh, fresh_pair, fresh_shared, setup_conditions, setup_refused, zero_pair};

use crate::{Made, Pair, Reserves, Settings, Setup, Shared, State};
use pie::{Backlog, FULL_ALLOWANCE, LATEST, Pie, Rate};
use refusals::Refusal;
use store::{Ends, Store};
use units::{Bytes, Micros, Prob};

// A state with nothing queued, counted or measured.
fn empty(settings: Settings, clock: Micros, allowance: Micros) -> State
    ensures { result ≡ empty_state settings clock.0 allowance.0 }
{
    let rate = Rate {
        average: Micros(0),
        measuring: false,
        start: Micros(0),
        counted: Bytes(0),
    };
    let pie = Pie {
        prob: Prob::NONE,
        old: Micros(0),
        allowance,
        accumulated: Prob::NONE,
        rate,
    };
    let backlog = Backlog {
        count: 0,
        bytes: Bytes(0),
    };
    let ends = Ends { head: 0, tail: 0 };
    State {
        settings,
        clock,
        last: clock,
        pie,
        backlog,
        ends,
        verdicts: [0, 0, 0, 0, 0],
    }
}

// A shared record with no slot taken.
fn untaken(slots: u64, intercom: u64, passengers: u64) -> Shared
    ensures { result ≡ fresh_shared slots intercom passengers }
{
    let reserves = Reserves {
        intercom,
        passengers,
    };
    let store = Store {
        used: 0,
        freed: 0,
        spare: 0,
    };
    Shared {
        slots,
        reserves,
        store,
    }
}

impl Setup {
    fn in_range(self) -> bool
        ensures { result ≡ all (setup_conditions self) }
    {
        let settings = self.settings;
        settings.in_range() & (self.clock.0 <= LATEST)
    }
}

// The records of zeros that a refusal returns.
fn zeros() -> Pair
    ensures { result ≡ zero_pair }
{
    let none = Settings {
        target: Micros(0),
        buffer: Bytes(0),
    };
    let zero = empty(none, Micros(0), Micros(0));
    Pair {
        shared: untaken(0, 0, 0),
        intercom: zero,
        passengers: zero,
    }
}

// The fresh records, or refusal 1.
fn checked(slots: u64, intercom: Setup, passengers: Setup) -> Result<Pair, Refusal>
    ensures { result ≡ cond (setup_refused slots intercom passengers) (Err Refusal.Settings) (Ok (fresh_pair slots intercom passengers)) }
{
    let shared = untaken(slots, intercom.reserve, passengers.reserve);
    let slots_fit = shared.slots_fit();
    let first = intercom.in_range();
    let second = passengers.in_range();
    if slots_fit && first && second {
        let full = Micros(FULL_ALLOWANCE);
        return Ok(Pair {
            shared,
            intercom: empty(intercom.settings, intercom.clock, full),
            passengers: empty(passengers.settings, passengers.clock, full),
        });
    }
    Err(Refusal::Settings)
}

pub fn fresh(slots: u64, intercom: Setup, passengers: Setup) -> Made
    ensures { fresh_reply result ≡ fresh slots intercom passengers }
{
    match checked(slots, intercom, passengers) {
        Ok(pair) => Made {
            accepted: Ok(()),
            pair,
        },
        Err(refusal) => Made {
            accepted: Err(refusal),
            pair: zeros(),
        },
    }
}
