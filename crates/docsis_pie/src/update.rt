// The periodic update: tick rules 1 to 12.
ghost use Rattle.std.specs.Prelude.{◌≡◌, ◌≤◌, ◌^◌, ltb};
ghost use Rattle.units.specs.Kinds.{micros};
ghost use Rattle.pie.specs.Constants.{longest};
ghost use Rattle.docsis_pie.specs.Constants.{most_prob, reset_timeout};
ghost use Rattle.docsis_pie.specs.Update.{is_quiet, next_allowance, phase_after, updated, waited};

use crate::constants::{PERIOD, RESET_TIMEOUT};
use crate::probability::next_prob;
use crate::queueing_delay::delay;
use crate::{Activity, DocsisPie, Phase};
use pie::refills;
use units::{Bytes, BytesPerSecond, Micros, Prob};

// Rule 2. One subtraction, which `pie` has inside its rule 8: a function for both would say no more.
pub fn next_allowance(allowance: Micros) -> Micros
    ensures { result ≡ micros (next_allowance allowance.0) }
{
    Micros(allowance.0.saturating_sub(PERIOD))
}

// Rule 9, with the new probability and allowance.
pub fn quiet(p: Prob, allowance: Micros, delay: Micros, old: Micros, target: Micros) -> bool
    requires { (delay.0 ≤ longest) × (old.0 ≤ longest) }
    ensures { result ≡ is_quiet p.0 allowance.0 delay.0 old.0 target.0 }
{
    (allowance.0 == 0) & refills(p, delay, old, target)
}

// Rule 11: a flow that has been quiet for so long becomes inactive.
pub fn timed_out(reset: Micros) -> bool
    ensures { result ≡ ltb reset_timeout reset.0 }
{
    RESET_TIMEOUT < reset.0
}

// Rule 11: a quiescent flow that has been quiet for so long.
fn wait(reset: u64) -> Phase
    ensures { result ≡ waited reset }
{
    if timed_out(Micros(reset)) {
        return Phase {
            activity: Activity::INACTIVE,
            reset: Micros(0),
        };
    }
    Phase {
        activity: Activity::QUIESCENT,
        reset: Micros(reset),
    }
}

impl Phase {
    // Rules 10 and 11.
    #[tactic(auto, unfolding(crate::specs::Update::phase_after))]
    pub fn after(self, quiet: bool) -> Phase
        requires { self.reset.0 ≤ reset_timeout }
        ensures { result ≡ phase_after quiet self }
    {
        if self.activity == Activity::ACTIVE {
            if quiet {
                return Phase {
                    activity: Activity::QUIESCENT,
                    reset: Micros(0),
                };
            }
            return self;
        }
        if self.activity == Activity::QUIESCENT {
            if quiet {
                return wait(self.reset.0 + PERIOD);
            }
            return wait(0);
        }
        self
    }

    // Rules 9 to 11. Above probability 0 no more is asked.
    fn ticked(self, p: Prob, allowance: Micros, delay: Micros, old: Micros, target: Micros) -> Phase
        requires { (self.reset.0 ≤ reset_timeout) × (delay.0 ≤ longest) × (old.0 ≤ longest) }
        ensures { result ≡ phase_after (is_quiet p.0 allowance.0 delay.0 old.0 target.0) self }
    {
        if p.0 == 0 {
            return self.after(quiet(p, allowance, delay, old, target));
        }
        self.after(false)
    }
}

impl DocsisPie {
    // A tick with so many bytes queued, and so many credits.
    #[tactic(auto, unfolding(crate::specs::Update::updated, crate::specs::Delay::delay_of))]
    pub fn update(
        self,
        target: Micros,
        bytes: Bytes,
        credits: Bytes,
        peak: BytesPerSecond,
        sustained: BytesPerSecond,
    ) -> DocsisPie
        requires prob_le_most_prob { (self.prob.0 ≤ most_prob) × (self.old.0 ≤ longest) × (self.phase.reset.0 ≤ reset_timeout) }
        requires target_bound { (target.0 ≤ 100000) × (bytes.0 ≤ 2 ^ 24) × (1 ≤ peak.0) × (1 ≤ sustained.0) }
        ensures { result ≡ updated self target.0 bytes.0 credits.0 peak.0 sustained.0 }
    {
        let old = self.old;
        let now = delay(bytes, credits, peak, sustained);
        let prob = next_prob(self.prob, self.allowance, now, old, target);
        let allowance = next_allowance(self.allowance);
        let phase = self.phase.ticked(prob, allowance, now, old, target);
        DocsisPie {
            prob,
            old: now,
            allowance,
            phase,
            ..self
        }
    }
}
