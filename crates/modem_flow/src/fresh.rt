// A fresh flow.
ghost use Rattle.std.specs.Prelude.{◌≡◌};
ghost use Rattle.refusals.specs.Answer.{accepted_answer, made};
ghost use Rattle.modem_flow.specs.Fresh.{fresh, fresh_state, zero_state};

use crate::{Returned, Settings, State};
use docsis_pie::{Activity, DocsisPie, Phase};
use pie::{Backlog, LATEST};
use refusals::Refusal;
use units::{Bytes, BytesPerSecond, Micros, Prob};

// A flow with nothing queued.
fn empty(settings: Settings, clock: Micros) -> State
    ensures { result ≡ fresh_state settings clock.0 }
{
    let phase = Phase {
        activity: Activity::INACTIVE,
        reset: Micros(0),
    };
    let pie = DocsisPie {
        prob: Prob::NONE,
        accumulated: Prob::NONE,
        old: Micros(0),
        allowance: Micros(0),
        phase,
    };
    let backlog = Backlog {
        count: 0,
        bytes: Bytes(0),
    };
    State {
        settings,
        clock,
        last: clock,
        pie,
        backlog,
        first: 0,
    }
}

impl State {
    // The all-zero record.
    pub fn zero() -> State
        ensures { result ≡ zero_state }
    {
        let none = Settings {
            target: Micros(0),
            buffer: Bytes(0),
            slots: 0,
            peak: BytesPerSecond(0),
            sustained: BytesPerSecond(0),
        };
        empty(none, Micros(0))
    }

    // A fresh flow; its row of the counts becomes 0 with it.
    #[tactic(auto, unfolding(crate::specs::Fresh::fresh))]
    pub fn fresh(settings: Settings, clock: Micros) -> Returned<Refusal>
        ensures { let a = fresh settings clock.0 in
            (accepted_answer result.accepted made ≡ a.answer) × (result.state ≡ a.state) }
    {
        let fits = settings.in_range() & (clock.0 <= LATEST);
        if fits {
            return Returned {
                accepted: Ok(()),
                state: empty(settings, clock),
            };
        }
        Returned {
            accepted: Err(Refusal::Settings),
            state: State::zero(),
        }
    }
}
