// A departure.
ghost use Rattle.std.specs.Prelude.{◌≡◌, true, ◌≤◌, ◌<◌, length};
ghost use Rattle.pie.specs.Constants.{largest};
ghost use Rattle.ring.specs.State.{well_formed};
ghost use Rattle.refusals.specs.Numbers.{refusal_in};
ghost use Rattle.refusals.specs.Answer.{departure_answer};
ghost use Rattle.ring.specs.Departure.{departed_state, departure, departure_refusal, head_of};

use crate::State;
use pie::Pie;
use places::place;
use refusals::{Packet, Refusal, check_clock, check_head, check_tables};
use units::{Bytes, Micros};

impl State {
    // Refusals 2, 3, 4, 6 and 9.
    #[tactic(auto, unfolding(crate::specs::Departure::departure_refusal))]
    fn check_departure(self, handles: &[u32], sizes: &[u32], clock: Micros) -> Result<(), Refusal>
        ensures { refusal_in result
            ≡ departure_refusal self (length handles.now) (length sizes.now) clock.0 (head_of self sizes.now) }
    {
        if !self.well_formed() {
            return Err(Refusal::Malformed);
        }
        check_tables(handles, sizes, self.settings.slots)?;
        check_clock(clock, self.clock)?;
        check_head(self.backlog, sizes[self.first as usize] as u64)
    }

    // The state after the head, of this size, has left.
    fn departed(self, clock: Micros, size: Bytes) -> State
        requires self_value { well_formed self ≡ true }
        requires clock_le_clock { (self.clock.0 ≤ clock.0) × (0 < self.backlog.count)
            × (size.0 ≤ self.backlog.bytes.0) × (size.0 ≤ largest) }
        ensures { result ≡ departed_state self clock.0 size.0 }
    {
        let backlog = self.backlog.leave(size);
        let rate = self.pie.rate.depart(clock, size, backlog);
        let pie = Pie { rate, ..self.pie };
        let first = place(self.first, 1, self.settings.slots);
        State {
            clock,
            pie,
            backlog,
            first,
            ..self
        }
    }

    // The head leaves. The tables are only read.
    pub fn departure(
        &mut self,
        handles: &[u32],
        sizes: &[u32],
        clock: Micros,
    ) -> Result<Packet, Refusal>
        ensures { let a = departure self.old handles.now sizes.now clock.0 in
            (departure_answer result ≡ a.answer) × (self.new ≡ a.state) }
    {
        self.check_departure(handles, sizes, clock)?;
        let at = self.first as usize;
        let packet = Packet {
            handle: handles[at],
            size: sizes[at],
        };
        *self = self.departed(clock, Bytes(packet.size as u64));
        Ok(packet)
    }
}
