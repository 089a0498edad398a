// An arrival.
ghost use Rattle.std.specs.Prelude.{◌≡◌, cond, true, ◌≤◌, ◌<◌, length, set};
ghost use Rattle.pie.specs.Backlog.{entered};
ghost use Rattle.pie.specs.Constants.{largest, most_verdicts};
ghost use Rattle.pie.specs.Verdicts.{admitted, total};
ghost use Rattle.ring.specs.Activity.{begun};
ghost use Rattle.ring.specs.State.{well_formed};
ghost use Rattle.refusals.specs.Numbers.{refusal_in};
ghost use Rattle.refusals.specs.Answer.{arrival_answer};
ghost use Rattle.ring.specs.Arrival.{arrival, arrival_refusal, arrived_pie, arrived_state, stored, tail_place, verdict_of};

use crate::State;
use pie::{Backlog, Decided, Pie, Verdict, raise};
use places::store;
use refusals::{Refusal, check_clock, check_size, check_tables, room_left};
use units::{Bytes, Micros};

impl State {
    // Refusals 2, 3, 4, 7 and 8.
    #[tactic(auto, using(crate::proofs::Tests::uncounted), unfolding(crate::specs::Arrival::arrival_refusal))]
    fn check_arrival(
        self,
        handles: &[u32],
        sizes: &[u32],
        clock: Micros,
        size: Bytes,
    ) -> Result<(), Refusal>
        ensures { refusal_in result ≡ arrival_refusal self (length handles.now) (length sizes.now) clock.0 size.0 }
    {
        let left = room_left(self.verdicts).ok_or(Refusal::Malformed)?;
        if !self.formed() {
            return Err(Refusal::Malformed);
        }
        check_tables(handles, sizes, self.settings.slots)?;
        check_clock(clock, self.clock)?;
        check_size(size.0)?;
        if left == 0 {
            return Err(Refusal::Counts);
        }
        Ok(())
    }

    // Rules 1 to 7. An inactive queue has probability 0, and one that turns active its full allowance: rules 3 to 7 enqueue in both.
    fn decide(self, size: Bytes, ecn: bool, u: u32) -> Decided
        requires self_value { well_formed self ≡ true }
        requires size_le_largest { size.0 ≤ largest }
        ensures verdict_value { result.verdict ≡ verdict_of (begun self) size.0 ecn u }
        ensures accumulated_value { result.accumulated ≡ (arrived_pie self result.verdict).accumulated }
    {
        let settings = self.settings;
        let pie = self.pie;
        let accumulated = pie.accumulated;
        let bytes_full = settings.buffer.0 < self.backlog.bytes.0 + size.0;
        if bytes_full {
            return Decided {
                verdict: Verdict::DroppedBytes,
                accumulated,
            };
        }
        let slots_full = self.backlog.count == settings.slots;
        if slots_full {
            return Decided {
                verdict: Verdict::DroppedSlots,
                accumulated,
            };
        }
        pie.decide(settings.target, self.backlog.bytes, ecn, u)
    }

    // The packets and bytes after an arrival with this verdict.
    fn entered(self, size: Bytes, v: Verdict) -> Backlog
        requires self_value { well_formed self ≡ true }
        requires size_le_largest { size.0 ≤ largest }
        ensures { result ≡ cond (admitted v) (entered self.backlog size.0) self.backlog }
    {
        if v.admits() {
            return self.backlog.enter(size);
        }
        self.backlog
    }

    // The state after an arrival with this verdict. A queue that turns active begins the algorithm anew.
    fn arrived(self, clock: Micros, size: Bytes, decided: Decided) -> State
        requires self_value { well_formed self ≡ true }
        requires verdicts_bound { (total self.verdicts < most_verdicts) × (size.0 ≤ largest) }
        requires accumulated_value { decided.accumulated ≡ (arrived_pie self decided.verdict).accumulated }
        ensures { result ≡ arrived_state (begun self) clock.0 size.0 decided.verdict }
    {
        let verdicts = raise(self.verdicts, decided.verdict);
        let backlog = self.entered(size, decided.verdict);
        if self.turns_active() {
            return State {
                clock,
                pie: Pie::restarted(),
                backlog,
                verdicts,
                active: true,
                ..self
            };
        }
        let pie = Pie {
            accumulated: decided.accumulated,
            ..self.pie
        };
        State {
            clock,
            pie,
            backlog,
            verdicts,
            ..self
        }
    }

    // An admitted packet is written at the tail of both tables.
    fn store(self, handles: &mut [u32], sizes: &mut [u32], v: Verdict, handle: u32, size: u32)
        requires self_value { well_formed self ≡ true }
        requires handles_len { (length handles.old ≡ self.settings.slots) × (length sizes.old ≡ self.settings.slots) }
        ensures handles_after { handles.new
            ≡ cond (admitted v) (set handles.old (tail_place self) handle) handles.old }
        ensures sizes_after { sizes.new
            ≡ cond (admitted v) (set sizes.old (tail_place self) size) sizes.old }
    {
        if v.admits() {
            store(
                handles,
                sizes,
                self.first,
                self.backlog.count,
                self.settings.slots,
                handle,
                size,
            );
        }
    }

    // A packet of `size` bytes arrives; `u` is its random number. Two tables, as C lends them: a struct of both would be made at each call.
    pub fn arrival(
        &mut self,
        handles: &mut [u32],
        sizes: &mut [u32],
        clock: Micros,
        handle: u32,
        size: Bytes,
        ecn: bool,
        u: u32,
    ) -> Result<Verdict, Refusal>
        ensures value { let a = arrival self.old handles.old sizes.old clock.0 size.0 ecn u in
            (arrival_answer result ≡ a.answer) × (self.new ≡ a.state) }
        ensures tables { let a = arrival self.old handles.old sizes.old clock.0 size.0 ecn u in
            (handles.new ≡ stored self.old a.answer handles.old handle)
            × (sizes.new ≡ stored self.old a.answer sizes.old size.0) }
    {
        self.check_arrival(handles, sizes, clock, size)?;
        let decided = self.decide(size, ecn, u);
        let v = decided.verdict;
        self.store(handles, sizes, v, handle, size.0 as u32);
        *self = self.arrived(clock, size, decided);
        Ok(v)
    }
}
