// The tests of settings, of what the flows have in common, and of a flow. Any values are taken.
ghost use Rattle.std.specs.Prelude.{◌≡◌, true};
ghost use Rattle.laws.specs.Tests.{all};
ghost use Rattle.fq_state.specs.WellFormed.{common_conditions, flow_conditions, settings_conditions};

use crate::{Common, Flow, Settings};
use pie::{FULL_ALLOWANCE, LARGEST, LATEST, LONGEST, MOST_ACCUMULATED, measurement_fits};
use refusals::counts_fit;
use units::Prob;

impl Settings {
    pub fn in_range(self) -> bool
        ensures { result ≡ all (settings_conditions self) }
    {
        (1_000 <= self.target.0)
            & (self.target.0 <= 100_000)
            & (1 <= self.buffer.0)
            & (self.buffer.0 <= 16_777_216)
            & (1 <= self.slots)
            & (self.slots <= 65_536)
            & (self.salt < 4_294_967_296)
    }
}

impl Common {
    pub fn fits(self) -> bool
        ensures { result ≡ all (common_conditions self) }
    {
        let counts = self.verdicts;
        if !counts_fit(counts) {
            return false;
        }
        let settings = self.settings;
        let store = self.store;
        let queued = self.backlog;
        let fine = settings.in_range()
            & (self.last.0 <= self.clock.0)
            & (self.clock.0 <= LATEST)
            & (store.freed < settings.slots)
            & (store.used <= settings.slots)
            & (queued.count <= store.used);
        if !fine {
            return false;
        }
        store.spare == store.used - queued.count
    }
}

impl Flow {
    pub fn fits(self, c: Common) -> bool
        requires { all (common_conditions c) ≡ true }
        ensures { result ≡ all (flow_conditions c self) }
    {
        let slots = c.settings.slots;
        let wrong = (Prob::WHOLE.0 < self.prob)
            | (LONGEST < self.old)
            | (FULL_ALLOWANCE < self.allowance)
            | (MOST_ACCUMULATED <= self.accumulated)
            | (LONGEST < self.average)
            | (slots <= self.head)
            | (slots <= self.tail)
            | (slots < self.count)
            | (self.bytes < self.count)
            | (c.settings.buffer.0 < self.bytes);
        if wrong {
            return false;
        }
        if LARGEST * self.count < self.bytes {
            return false;
        }
        let pie = self.pie();
        measurement_fits(pie.rate, c.clock, self.count)
    }
}
