// An arrival.
ghost use Rattle.std.specs.Prelude.{◌≡◌, cond, true, ◌≤◌, length, set};
ghost use Rattle.pie.specs.Constants.{largest};
ghost use Rattle.pie.specs.Verdicts.{admitted};
ghost use Rattle.refusals.specs.Numbers.{refusal_in};
ghost use Rattle.modem_flow.specs.State.{formed};
ghost use Rattle.refusals.specs.Answer.{arrival_answer};
ghost use Rattle.modem_flow.specs.Arrival.{arrival_refusal, arrived_state, decision_of, arrival, stored, tail_place};

use crate::State;
use crate::well_formed::counts_left;
use docsis_pie::{Decided, DocsisPie};
use pie::Verdict;
use places::store;
use refusals::{Refusal, check_clock, check_size, check_tables};
use units::{Bytes, Micros, Prob};

impl State {
    // Refusals 2, 3, 4, 7 and 8.
    #[tactic(auto, unfolding(crate::specs::Arrival::arrival_refusal, crate::specs::State::well_formed))]
    fn check_arrival(
        self,
        row: [u64; 5],
        handles: &[u32],
        sizes: &[u32],
        clock: Micros,
        size: Bytes,
    ) -> Result<(), Refusal>
        ensures { refusal_in result
            ≡ arrival_refusal self row (length handles.now) (length sizes.now) clock.0 size.0 }
    {
        let left = counts_left(row);
        if left == 0 {
            return Err(Refusal::Malformed);
        }
        if !self.formed() {
            return Err(Refusal::Malformed);
        }
        check_tables(handles, sizes, self.settings.slots)?;
        check_clock(clock, self.clock)?;
        check_size(size.0)?;
        if left == 1 {
            return Err(Refusal::Counts);
        }
        Ok(())
    }

    // Rules 1 to 15.
    #[tactic(auto, unfolding(crate::specs::Arrival::decision_of))]
    fn decide(self, size: Bytes, u: u32) -> Decided
        requires self_value { formed self ≡ true }
        requires size_le_largest { size.0 ≤ largest }
        ensures { result ≡ decision_of self size.0 u }
    {
        let settings = self.settings;
        let before = self.pie;
        let queued = self.backlog.bytes;
        let bytes_full = settings.buffer.0 < queued.0 + size.0;
        if bytes_full {
            let pie = DocsisPie {
                accumulated: Prob::NONE,
                ..before
            };
            return Decided {
                verdict: Verdict::DroppedBytes,
                pie,
            };
        }
        let slots_full = self.backlog.count == settings.slots;
        if slots_full {
            let pie = DocsisPie {
                accumulated: Prob::NONE,
                ..before
            };
            return Decided {
                verdict: Verdict::DroppedSlots,
                pie,
            };
        }
        before.decide(settings.target, settings.buffer, queued, size, u)
    }

    // The state after an arrival that was so decided.
    #[tactic(auto, unfolding(crate::specs::Arrival::arrived_state))]
    fn arrived(self, clock: Micros, size: Bytes, decided: Decided) -> State
        requires self_value { formed self ≡ true }
        requires size_le_largest { size.0 ≤ largest }
        ensures { result ≡ arrived_state self clock.0 size.0 decided }
    {
        let pie = decided.pie;
        let v = decided.verdict;
        let admits = v.admits();
        if admits {
            let queued = self.backlog;
            let backlog = queued.enter(size);
            return State {
                clock,
                pie,
                backlog,
                ..self
            };
        }
        State { clock, pie, ..self }
    }

    // An admitted packet is written at the tail of both tables.
    fn store(self, handles: &mut [u32], sizes: &mut [u32], v: Verdict, handle: u32, size: u32)
        requires self_value { formed self ≡ true }
        requires handles_len { (length handles.old ≡ self.settings.slots) × (length sizes.old ≡ self.settings.slots) }
        ensures handles_after { handles.new
            ≡ cond (admitted v) (set handles.old (tail_place self) handle) handles.old }
        ensures sizes_after { sizes.new
            ≡ cond (admitted v) (set sizes.old (tail_place self) size) sizes.old }
    {
        let admits = v.admits();
        if admits {
            store(
                handles,
                sizes,
                self.first,
                self.backlog.count,
                self.settings.slots,
                handle,
                size,
            );
        }
    }

    // A packet of `size` bytes arrives; `u` is its random number. Two tables, as C lends them.
    #[tactic(auto, using(crate::proofs::Replies::refused_reply), unfolding(crate::specs::Arrival::arrival))]
    pub fn arrival(
        &mut self,
        row: [u64; 5],
        handles: &mut [u32],
        sizes: &mut [u32],
        clock: Micros,
        handle: u32,
        size: Bytes,
        u: u32,
    ) -> Result<Verdict, Refusal>
        ensures reply { let a = arrival self.old row handles.old sizes.old clock.0 size.0 u in
            (arrival_answer result ≡ a.answer) × (self.new ≡ a.state) }
        ensures tables { let a = arrival self.old row handles.old sizes.old clock.0 size.0 u in
            (handles.new ≡ stored self.old a.answer handles.old handle)
            × (sizes.new ≡ stored self.old a.answer sizes.old size.0) }
    {
        self.check_arrival(row, handles, sizes, clock, size)?;
        let decided = self.decide(size, u);
        let v = decided.verdict;
        self.store(handles, sizes, v, handle, size.0 as u32);
        *self = self.arrived(clock, size, decided);
        Ok(v)
    }
}
