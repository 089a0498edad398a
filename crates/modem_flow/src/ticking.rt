// A tick.
ghost use Rattle.std.specs.Prelude.{◌≡◌, true};
ghost use Rattle.refusals.specs.Numbers.{refusal_in};
ghost use Rattle.modem_flow.specs.State.{formed};
ghost use Rattle.refusals.specs.Answer.{accepted_answer, ticked};
ghost use Rattle.modem_flow.specs.Tick.{tick, tick_refusal, ticked_state};

use crate::State;
use docsis_pie::PERIOD;
use refusals::{Refusal, check_clock};
use units::{Bytes, Micros};

impl State {
    // Refusals 2, 4 and 5.
    #[tactic(auto, unfolding(crate::specs::Tick::tick_refusal))]
    fn check_tick(self, row: [u64; 5], clock: Micros) -> Result<(), Refusal>
        ensures { refusal_in result ≡ tick_refusal self row clock.0 }
    {
        if !self.well_formed(row) {
            return Err(Refusal::Malformed);
        }
        check_clock(clock, self.clock)?;
        if clock.0 < self.last.0 + PERIOD {
            return Err(Refusal::TooSoon);
        }
        Ok(())
    }

    // The state after a tick.
    #[tactic(auto, unfolding(crate::specs::Tick::ticked_state))]
    fn ticked(self, clock: Micros, credits: Bytes) -> State
        requires { formed self ≡ true }
        ensures { result ≡ ticked_state self clock.0 credits.0 }
    {
        let settings = self.settings;
        let before = self.pie;
        let queued = self.backlog;
        let pie = before.update(
            settings.target,
            queued.bytes,
            credits,
            settings.peak,
            settings.sustained,
        );
        State {
            clock,
            last: clock,
            pie,
            ..self
        }
    }

    // The periodic update, with the credits for bytes that leave at the peak rate.
    #[tactic(auto, using(crate::proofs::Replies::refused_reply), unfolding(crate::specs::Tick::tick))]
    pub fn tick(&mut self, row: [u64; 5], clock: Micros, credits: Bytes) -> Result<(), Refusal>
        ensures { let a = tick self.old row clock.0 credits.0 in
            (accepted_answer result ticked ≡ a.answer) × (self.new ≡ a.state) }
    {
        self.check_tick(row, clock)?;
        *self = self.ticked(clock, credits);
        Ok(())
    }
}
