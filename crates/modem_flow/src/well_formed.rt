// Whether a flow's record is well formed, with its row of the counts. Any values of its fields are taken.
ghost use Rattle.std.specs.Prelude.{◌≡◌, ◌&&◌, ◌||◌, ◌+◌, ◌-◌, eqb};
ghost use Rattle.units.specs.Kinds.{none};
ghost use Rattle.pie.specs.Constants.{most_verdicts};
ghost use Rattle.pie.specs.Verdicts.{total};
ghost use Rattle.docsis_pie.specs.Constants.{active, quiescent};
ghost use Rattle.laws.specs.Tests.{all};
ghost use Rattle.modem_flow.specs.State.{formed, settings_conditions, well_formed};

use crate::{Settings, State};
use docsis_pie::{Activity, DocsisPie, FULL_ALLOWANCE, HIGH, MOST_PROB, RESET_TIMEOUT};
use pie::{LARGEST, LATEST, LONGEST, MOST_VERDICTS};
use refusals::counts_fit;
use units::BytesPerSecond;

impl Settings {
    pub fn in_range(self) -> bool
        ensures { result ≡ all (settings_conditions self) }
    {
        (1_000 <= self.target.0)
            & (self.target.0 <= 100_000)
            & (1 <= self.buffer.0)
            & (self.buffer.0 <= 16_777_216)
            & (1 <= self.slots)
            & (self.slots <= 65_536)
            & (BytesPerSecond::SLOWEST.0 <= self.peak.0)
            & (self.peak.0 <= BytesPerSecond::FASTEST.0)
            & (BytesPerSecond::SLOWEST.0 <= self.sustained.0)
            & (self.sustained.0 <= BytesPerSecond::FASTEST.0)
    }
}

// An allowance runs in an active flow alone, a reset time in a quiescent one with probability 0.
fn phase_fits(pie: DocsisPie) -> bool
    ensures { result ≡ ((eqb pie.allowance.0 0 || eqb pie.phase.activity.0 active)
        && (eqb pie.phase.reset.0 0 || (eqb pie.phase.activity.0 quiescent && eqb pie.prob.0 none))) }
{
    let at = pie.phase.activity;
    let still = pie.phase.reset.0 == 0;
    let spent = pie.allowance.0 == 0;
    if spent {
        if still {
            return true;
        }
        return (at == Activity::QUIESCENT) & (pie.prob.0 == 0);
    }
    (at == Activity::ACTIVE) & still
}

// How far the counts are below 2^48 + 1: 0 where their sum is above 2^48, and 1 where it is 2^48. An arrival asks for both: by `room_left`
// and `ok_or` it takes 236.3 instructions in place of 233.6.
pub(crate) fn counts_left(counts: [u64; 5]) -> u64
    ensures { result ≡ most_verdicts + 1 - total counts }
{
    let [a, b, c, d, e] = counts;
    (MOST_VERDICTS + 1)
        .saturating_sub(a)
        .saturating_sub(b)
        .saturating_sub(c)
        .saturating_sub(d)
        .saturating_sub(e)
}

impl State {
    // All that is asked of the record itself. The settings come last, so that the compiler knows no rate to be 0, and the product after the
    // tests that bound it.
    pub(crate) fn formed(self) -> bool
        ensures { result ≡ formed self }
    {
        let settings = self.settings;
        let pie = self.pie;
        let backlog = self.backlog;
        let fits = (self.last.0 <= self.clock.0)
            & (self.clock.0 <= LATEST)
            & (pie.prob.0 <= MOST_PROB)
            & (pie.accumulated.0 <= HIGH)
            & (pie.old.0 <= LONGEST)
            & (pie.allowance.0 <= FULL_ALLOWANCE)
            & (pie.phase.reset.0 <= RESET_TIMEOUT)
            & (pie.phase.activity.0 <= Activity::ACTIVE.0)
            & (self.first < settings.slots)
            & (backlog.count <= settings.slots)
            & (backlog.count <= backlog.bytes.0)
            & (backlog.bytes.0 <= settings.buffer.0)
            & settings.in_range();
        if !fits {
            return false;
        }
        if LARGEST * backlog.count < backlog.bytes.0 {
            return false;
        }
        phase_fits(pie)
    }

    // Called, and not put into its callers, it takes 42 to 72 instructions more of a call.
    #[inline(always)]
    #[tactic(auto, unfolding(crate::specs::State::well_formed))]
    pub fn well_formed(self, row: [u64; 5]) -> bool
        ensures { result ≡ well_formed self row }
    {
        counts_fit(row) && self.formed()
    }
}
