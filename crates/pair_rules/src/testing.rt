// Whether the records are well formed. Any values of their fields are taken.
ghost use Rattle.std.specs.Prelude.{◌≡◌, true, ◌≤◌};
ghost use Rattle.laws.specs.Tests.{all};
ghost use Rattle.pair_rules.specs.Queues.{paired};
ghost use Rattle.pair_rules.specs.WellFormed.{both_conditions, queue_conditions, settings_conditions};
ghost use Rattle.pair_rules.specs.WellFormed.{shared_conditions, slots_conditions, well_formed};
ghost use Rattle.pair_rules.specs.declared.Which.TheVariants.{Intercom};

use crate::{Settings, Shared, State};
use pie::{FULL_ALLOWANCE, LARGEST, LATEST, LONGEST, MOST_ACCUMULATED, measurement_fits};
use refusals::counts_fit;
use units::Prob;

impl Settings {
    pub(crate) fn in_range(self) -> bool
        ensures { result ≡ all (settings_conditions self) }
    {
        (1_000 <= self.target.0)
            & (self.target.0 <= 100_000)
            & (1 <= self.buffer.0)
            & (self.buffer.0 <= 16_777_216)
    }
}

impl Shared {
    // Both reserves are tested without a sum, which might not fit.
    pub(crate) fn slots_fit(self) -> bool
        ensures { result ≡ all (slots_conditions self) }
    {
        let slots = self.slots;
        let reserves = self.reserves;
        if slots < reserves.intercom {
            return false;
        }
        (1 <= slots) & (slots <= 65_536) & (reserves.passengers <= slots - reserves.intercom)
    }

    pub fn fits(self) -> bool
        ensures { result ≡ all (shared_conditions self) }
    {
        let store = self.store;
        self.slots_fit() & (store.freed < self.slots) & (store.used <= self.slots)
    }

    // Common use, and that each used slot holds a packet or was freed.
    pub fn holds(self, intercom: State, passengers: State) -> bool
        requires self_value { all (shared_conditions self) ≡ true }
        requires count_le_slots { (intercom.backlog.count ≤ self.slots) × (passengers.backlog.count ≤ self.slots) }
        ensures { result ≡ all (both_conditions (paired Intercom self intercom passengers)) }
    {
        let reserves = self.reserves;
        let store = self.store;
        let a = intercom.backlog.count;
        let b = passengers.backlog.count;
        if store.used < a + b {
            return false;
        }
        let common = self.slots - reserves.intercom - reserves.passengers;
        let used = a.saturating_sub(reserves.intercom) + b.saturating_sub(reserves.passengers);
        (used <= common) & (store.spare == store.used - (a + b))
    }
}

impl State {
    // In the shape of the ring queue's `State::well_formed` (docs/PERFORMANCE.md).
    pub fn fits(self, slots: u64) -> bool
        requires { slots ≤ 65536 }
        ensures { result ≡ all (queue_conditions slots self) }
    {
        let counts = self.verdicts;
        if !counts_fit(counts) {
            return false;
        }
        let settings = self.settings;
        let pie = self.pie;
        let backlog = self.backlog;
        let wrong = !settings.in_range()
            | (self.clock.0 < self.last.0)
            | (LATEST < self.clock.0)
            | (Prob::WHOLE.0 < pie.prob.0)
            | (LONGEST < pie.old.0)
            | (FULL_ALLOWANCE < pie.allowance.0)
            | (MOST_ACCUMULATED <= pie.accumulated.0)
            | (LONGEST < pie.rate.average.0)
            | (slots <= self.ends.head)
            | (slots <= self.ends.tail)
            | (slots < backlog.count)
            | (backlog.bytes.0 < backlog.count)
            | (settings.buffer.0 < backlog.bytes.0);
        if wrong {
            return false;
        }
        if LARGEST * backlog.count < backlog.bytes.0 {
            return false;
        }
        measurement_fits(pie.rate, self.clock, backlog.count)
    }
}

pub fn well_formed(shared: Shared, intercom: State, passengers: State) -> bool
    ensures { result ≡ well_formed (paired Intercom shared intercom passengers) }
{
    if !shared.fits() {
        return false;
    }
    if !intercom.fits(shared.slots) {
        return false;
    }
    if !passengers.fits(shared.slots) {
        return false;
    }
    shared.holds(intercom, passengers)
}
