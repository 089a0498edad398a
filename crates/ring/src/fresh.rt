// A fresh state.
ghost use Rattle.std.specs.Prelude.{◌≡◌};
ghost use Rattle.ring.specs.Answer.{fresh_reply};
ghost use Rattle.ring.specs.Fresh.{empty_state, fresh, settings_of};

use crate::{Returned, Settings, State};
use pie::{Backlog, LATEST, Pie};
use refusals::Refusal;
use units::{Bytes, Micros};

// A state with nothing queued or counted.
fn empty(settings: Settings, clock: Micros, pie: Pie, active: bool) -> State
    ensures { result ≡ empty_state settings clock.0 pie active }
{
    let backlog = Backlog {
        count: 0,
        bytes: Bytes(0),
    };
    State {
        settings,
        clock,
        last: clock,
        pie,
        backlog,
        first: 0,
        verdicts: [0, 0, 0, 0, 0],
        active,
    }
}

impl State {
    pub fn fresh(target: Micros, buffer: Bytes, slots: u64, profile: u64, clock: Micros) -> Returned
        ensures { fresh_reply result ≡ fresh (settings_of target.0 buffer.0 slots profile) clock.0 }
    {
        let settings = Settings {
            target,
            buffer,
            slots,
            profile,
        };
        let fits = settings.in_range() & (clock.0 <= LATEST);
        if fits {
            let active = !settings.is_calm();
            return Returned {
                accepted: Ok(()),
                state: empty(settings, clock, Pie::restarted(), active),
            };
        }
        let none = Settings {
            target: Micros(0),
            buffer: Bytes(0),
            slots: 0,
            profile: 0,
        };
        Returned {
            accepted: Err(Refusal::Settings),
            state: empty(none, Micros(0), Pie::unstarted(Micros(0)), false),
        }
    }
}
