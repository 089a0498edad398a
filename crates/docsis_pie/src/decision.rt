// The drop decision: arrival rules 3 to 15.
ghost use Rattle.std.specs.Prelude.{◌≡◌, ◌&&◌, ◌+◌, ◌*◌, ◌≤◌, ◌^◌, min, ltb};
ghost use Rattle.units.specs.Kinds.{prob, whole};
ghost use Rattle.pie.specs.Constants.{largest, longest};
ghost use Rattle.docsis_pie.specs.Constants.{high, low, most_prob};
ghost use Rattle.docsis_pie.specs.DropDecision.{after_drop, cleared, decided, drawn_with, early, is_small, scaled_of, summed, no_longer_inactive};

use crate::constants::{FULL_ALLOWANCE, HIGH, LOW, MEAN_PACKET, SMALL_QUEUE};
use crate::{Activity, Decided, DocsisPie, Phase};
use pie::{Verdict, in_allowance, short};
use units::{Bytes, Micros, Prob};

// Rule 5, of the bytes: less than a third of the buffer.
pub fn below_third(bytes: Bytes, buffer: Bytes) -> bool
    requires { bytes.0 ≤ 2 ^ 24 }
    ensures { result ≡ ltb (3 * bytes.0) buffer.0 }
{
    3 * bytes.0 < buffer.0
}

// Rule 7.
#[tactic(auto, unfolding(crate::specs::DropDecision::scaled_of))]
pub fn scaled(p: Prob, size: Bytes) -> Prob
    requires { (p.0 ≤ most_prob) × (size.0 ≤ largest) }
    ensures { result ≡ prob (scaled_of p.0 size.0) }
{
    Prob((p.0 * size.0 / MEAN_PACKET).min(LOW))
}

// Rule 8: the sum, before its limit.
pub fn sum(accumulated: Prob, scaled: Prob) -> Prob
    requires { (accumulated.0 ≤ high) × (scaled.0 ≤ low) }
    ensures { result ≡ prob (accumulated.0 + scaled.0) }
{
    Prob(accumulated.0 + scaled.0)
}

// Rule 8: the limit of the sum.
pub fn limit_sum(sum: Prob) -> Prob
    ensures { result ≡ prob (min sum.0 high) }
{
    Prob(sum.0.min(HIGH))
}

// Rule 9.
pub fn lightly_loaded(p: Prob, old: Micros, target: Micros) -> bool
    requires { (p.0 ≤ most_prob) × (old.0 ≤ longest) }
    ensures { result ≡ (ltb (2 * old.0) target.0 && ltb (5 * p.0) whole) }
{
    short(old, target) & (5 * p.0 < Prob::WHOLE.0)
}

// Rule 10. `pie::small` is the same line with its own constant: with the constant as a parameter neither would be plainer.
pub fn small(bytes: Bytes) -> bool
    ensures { result ≡ is_small bytes.0 }
{
    bytes.0 <= SMALL_QUEUE
}

// Rule 11.
pub fn is_low(sum: Prob) -> bool
    ensures { result ≡ ltb sum.0 low }
{
    sum.0 < LOW
}

// Rule 13.
pub fn early(scaled: Prob, u: u32) -> bool
    ensures { result ≡ early scaled.0 u }
{
    (u as u64) < scaled.0
}

impl DocsisPie {
    // Rule 4.
    fn clear(self) -> DocsisPie
        ensures { result ≡ cleared self }
    {
        if self.prob.0 == 0 {
            return DocsisPie {
                accumulated: Prob::NONE,
                ..self
            };
        }
        self
    }

    // Rule 6.
    fn become_quiescent(self) -> DocsisPie
        ensures { result ≡ no_longer_inactive self }
    {
        if self.phase.activity == Activity::INACTIVE {
            let phase = Phase {
                activity: Activity::QUIESCENT,
                ..self.phase
            };
            return DocsisPie { phase, ..self };
        }
        self
    }

    // Rule 8.
    fn add(self, scaled: Prob) -> DocsisPie
        requires { (self.accumulated.0 ≤ high) × (scaled.0 ≤ low) }
        ensures { result ≡ summed self scaled.0 }
    {
        let accumulated = limit_sum(sum(self.accumulated, scaled));
        DocsisPie {
            accumulated,
            ..self
        }
    }

    // Rule 15.
    fn drop_early(self) -> DocsisPie
        ensures { result ≡ after_drop self }
    {
        let spent = DocsisPie {
            accumulated: Prob::NONE,
            ..self
        };
        if self.phase.activity == Activity::QUIESCENT {
            let phase = Phase {
                activity: Activity::ACTIVE,
                ..self.phase
            };
            return DocsisPie {
                allowance: Micros(FULL_ALLOWANCE),
                phase,
                ..spent
            };
        }
        spent
    }

    // Rules 9 to 15, with what rule 8 accumulated.
    #[tactic(auto, unfolding(crate::specs::DropDecision::drawn_with, crate::specs::DropDecision::drawn))]
    fn draw(self, target: Micros, bytes: Bytes, scaled: Prob, u: u32) -> Decided
        requires { (self.prob.0 ≤ most_prob) × (self.old.0 ≤ longest) }
        ensures { result ≡ drawn_with self target.0 bytes.0 scaled.0 u }
    {
        let spared = Decided {
            verdict: Verdict::Enqueued,
            pie: self,
        };
        if lightly_loaded(self.prob, self.old, target) {
            return spared;
        }
        if small(bytes) {
            return spared;
        }
        if is_low(self.accumulated) {
            return spared;
        }
        if (self.accumulated.0 == HIGH) | early(scaled, u) {
            return Decided {
                verdict: Verdict::DroppedEarly,
                pie: self.drop_early(),
            };
        }
        spared
    }

    // Rules 3 to 15.
    #[tactic(auto, unfolding(crate::specs::DropDecision::decided, crate::specs::DropDecision::scaled_of))]
    pub fn decide(self, target: Micros, buffer: Bytes, bytes: Bytes, size: Bytes, u: u32) -> Decided
        requires prob_le_most_prob { (self.prob.0 ≤ most_prob) × (self.old.0 ≤ longest) × (self.accumulated.0 ≤ high) }
        requires bytes_bound { (bytes.0 ≤ 2 ^ 24) × (size.0 ≤ largest) }
        ensures { result ≡ decided self target.0 buffer.0 bytes.0 size.0 u }
    {
        if in_allowance(self.allowance) {
            return Decided {
                verdict: Verdict::Enqueued,
                pie: self,
            };
        }
        let start = self.clear();
        if (self.phase.activity == Activity::INACTIVE) & below_third(bytes, buffer) {
            return Decided {
                verdict: Verdict::Enqueued,
                pie: start,
            };
        }
        let part = scaled(self.prob, size);
        let started = start.become_quiescent();
        let added = started.add(part);
        added.draw(target, bytes, part, u)
    }
}
