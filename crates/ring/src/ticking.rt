// A tick.
ghost use Rattle.std.specs.Prelude.{◌≡◌, true};
ghost use Rattle.ring.specs.State.{well_formed};
ghost use Rattle.refusals.specs.Numbers.{refusal_in};
ghost use Rattle.refusals.specs.Answer.{accepted_answer, ticked};
ghost use Rattle.ring.specs.Tick.{tick, tick_refusal, ticked_state};

use crate::State;
use pie::PERIOD;
use refusals::{Refusal, check_clock};
use units::Micros;

impl State {
    // Refusals 2, 4 and 5.
    #[tactic(auto, unfolding(crate::specs::Tick::tick_refusal))]
    fn check_tick(self, clock: Micros) -> Result<(), Refusal>
        ensures { refusal_in result ≡ tick_refusal self clock.0 }
    {
        if !self.well_formed() {
            return Err(Refusal::Malformed);
        }
        check_clock(clock, self.clock)?;
        if clock.0 < self.last.0 + PERIOD {
            return Err(Refusal::TooSoon);
        }
        Ok(())
    }

    // The state after a tick. A plain queue is always active.
    fn ticked(self, clock: Micros) -> State
        requires { well_formed self ≡ true }
        ensures { result ≡ ticked_state self clock.0 }
    {
        let settings = self.settings;
        let before = self.pie;
        let queued = self.backlog;
        let calm = settings.is_calm();
        if !calm {
            let pie = before.update(false, settings.target, queued.bytes);
            return State {
                clock,
                last: clock,
                pie,
                ..self
            };
        }
        let active = self.active;
        if active {
            let pie = before.update(true, settings.target, queued.bytes);
            let turns = self.turns_inactive(pie);
            return State {
                clock,
                last: clock,
                pie,
                active: !turns,
                ..self
            };
        }
        State {
            clock,
            last: clock,
            ..self
        }
    }

    // The periodic update.
    pub fn tick(&mut self, clock: Micros) -> Result<(), Refusal>
        ensures { let a = tick self.old clock.0 in
            (accepted_answer result ticked ≡ a.answer) × (self.new ≡ a.state) }
    {
        self.check_tick(clock)?;
        *self = self.ticked(clock);
        Ok(())
    }
}
