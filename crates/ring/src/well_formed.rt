// Whether a state record is well formed. Any values of its fields are taken.
ghost use Rattle.std.specs.Prelude.{◌≡◌, ◌≤◌};
ghost use Rattle.laws.specs.Tests.{all};
ghost use Rattle.pie.specs.Constants.{most_verdicts};
ghost use Rattle.pie.specs.Verdicts.{total};
ghost use Rattle.ring.specs.State.{settings_conditions, well_formed};

use crate::{Settings, State};
use pie::{FULL_ALLOWANCE, LARGEST, LATEST, LONGEST, MOST_ACCUMULATED, measurement_fits};
use refusals::counts_fit;
use units::Prob;

impl Settings {
    pub fn in_range(self) -> bool
        ensures { result ≡ all (settings_conditions self) }
    {
        (1_000 <= self.target.0)
            & (self.target.0 <= 100_000)
            & (1 <= self.buffer.0)
            & (self.buffer.0 <= 16_777_216)
            & (1 <= self.slots)
            & (self.slots <= 65_536)
            & (self.profile <= 1)
    }
}

impl State {
    // All but the counts, which are tested first. Contracts ask `well_formed` of a `State`, which is any record that C lends: a type for
    // tested ones would be built once a call and taken apart in it. It asks whether a test fails, so that each limit is compared as it is
    // written. The product comes after the tests that bound it, and the compiler then makes a compare and a jump of each
    // (docs/PERFORMANCE.md).
    pub(crate) fn formed(self) -> bool
        requires { total self.verdicts ≤ most_verdicts }
        ensures { result ≡ well_formed self }
    {
        let settings = self.settings;
        let pie = self.pie;
        let backlog = self.backlog;
        let wrong = (LATEST < self.clock.0)
            | (Prob::WHOLE.0 < pie.prob.0)
            | (LONGEST < pie.old.0)
            | (MOST_ACCUMULATED <= pie.accumulated.0)
            | (LONGEST < pie.rate.average.0)
            | (settings.slots <= self.first)
            | (settings.slots < backlog.count)
            | (backlog.bytes.0 < backlog.count)
            | (settings.buffer.0 < backlog.bytes.0)
            | (self.clock.0 < self.last.0)
            | (FULL_ALLOWANCE < pie.allowance.0)
            | !settings.in_range();
        if wrong {
            return false;
        }
        if LARGEST * backlog.count < backlog.bytes.0 {
            return false;
        }
        let fits = measurement_fits(pie.rate, self.clock, backlog.count);
        if !fits {
            return false;
        }
        let active = self.active;
        if active {
            return true;
        }
        settings.is_calm() & (pie.prob.0 == 0)
    }

    #[inline(always)]
    pub fn well_formed(self) -> bool
        ensures { result ≡ well_formed self }
    {
        counts_fit(self.verdicts) && self.formed()
    }
}
