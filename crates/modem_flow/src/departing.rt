// A departure.
ghost use Rattle.std.specs.Prelude.{◌≡◌, true, ◌≤◌, ◌<◌, length};
ghost use Rattle.refusals.specs.Numbers.{refusal_in};
ghost use Rattle.modem_flow.specs.State.{formed};
ghost use Rattle.refusals.specs.Answer.{departure_answer};
ghost use Rattle.modem_flow.specs.Departure.{departed_state, departure_refusal, departure, head_of};

use crate::State;
use places::place;
use refusals::{Packet, Refusal, check_clock, check_head, check_tables};
use units::{Bytes, Micros};

impl State {
    // Refusals 2, 3, 4, 6 and 9.
    #[tactic(auto, unfolding(crate::specs::Departure::departure_refusal))]
    fn check_departure(
        self,
        row: [u64; 5],
        handles: &[u32],
        sizes: &[u32],
        clock: Micros,
    ) -> Result<(), Refusal>
        ensures { refusal_in result
            ≡ departure_refusal self row (length handles.now) (length sizes.now) clock.0 (head_of self sizes.now) }
    {
        if !self.well_formed(row) {
            return Err(Refusal::Malformed);
        }
        check_tables(handles, sizes, self.settings.slots)?;
        check_clock(clock, self.clock)?;
        check_head(self.backlog, sizes[self.first as usize] as u64)
    }

    // The state after the head, of this size, has left.
    #[tactic(auto, unfolding(crate::specs::Departure::departed_state))]
    fn departed(self, clock: Micros, size: Bytes) -> State
        requires self_value { formed self ≡ true }
        requires count_nonzero { (0 < self.backlog.count) × (size.0 ≤ self.backlog.bytes.0) }
        ensures { result ≡ departed_state self clock.0 size.0 }
    {
        let queued = self.backlog;
        let backlog = queued.leave(size);
        let first = place(self.first, 1, self.settings.slots);
        State {
            clock,
            backlog,
            first,
            ..self
        }
    }

    // The head leaves. The tables are only read.
    #[tactic(auto, using(crate::proofs::Replies::refused_reply), unfolding(crate::specs::Departure::departure))]
    pub fn departure(
        &mut self,
        row: [u64; 5],
        handles: &[u32],
        sizes: &[u32],
        clock: Micros,
    ) -> Result<Packet, Refusal>
        ensures { let a = departure self.old row handles.now sizes.now clock.0 in
            (departure_answer result ≡ a.answer) × (self.new ≡ a.state) }
    {
        self.check_departure(row, handles, sizes, clock)?;
        let at = self.first as usize;
        let handle = handles[at];
        let size = sizes[at];
        *self = self.departed(clock, Bytes(size as u64));
        Ok(Packet { handle, size })
    }
}
