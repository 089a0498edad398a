// The probability at a tick: rules 2 to 8.
ghost use Rattle.std.specs.Prelude.{◌≡◌, ◌≤◌, ◌<◌, ◌^◌, nat_abs};
ghost use Rattle.units.specs.Kinds.{prob};
ghost use Rattle.pie.specs.Constants.{longest};
ghost use Rattle.docsis_pie.specs.Constants.{most_prob};
ghost use Rattle.docsis_pie.specs.Probability.{adjusted, capped, divisor_of, limited, next_prob, step_of, stepped_prob};

use crate::constants::{CAP, HIGH_DELAY, LOW_DELAY, MOST_PROB};
use pie::{cap_step, error, in_allowance};
use units::{Micros, Prob};

// Rule 5. `pie::step` has another scale: as a parameter it would stand in the clause, and at each of the nine rows of `table_step`.
#[tactic(auto, unfolding(crate::specs::Probability::step_of))]
pub fn step(x: i64, k: u64) -> i64
    requires { (nat_abs x ≤ 300000000) × (0 < k) × (k ≤ 65536) }
    ensures { result ≡ step_of x k }
{
    x * 536_870_912 / (15_625 * (k as i64))
}

// Rules 4 and 5, row by row: a divisor that stands in the code is divided by without a division (docs/changes/Q-5.md).
#[tactic(auto, unfolding(crate::specs::Probability::divisor_of, pie::specs::Update::lookup))]
fn table_step(p: Prob, x: i64) -> i64
    requires { (p.0 ≤ most_prob) × (nat_abs x ≤ 300000000) }
    ensures { result ≡ step_of x (divisor_of p.0) }
{
    let n = p.0;
    match n {
        0..=4_294 => step(x, 65_536),
        4_295..=42_949 => step(x, 16_384),
        42_950..=429_496 => step(x, 4_096),
        429_497..=4_294_967 => step(x, 1_024),
        4_294_968..=42_949_672 => step(x, 256),
        42_949_673..=429_496_729 => step(x, 64),
        429_496_730..=4_294_967_295 => step(x, 16),
        4_294_967_296..=42_949_672_959 => step(x, 4),
        42_949_672_960.. => step(x, 1),
    }
}

// Rule 7.
#[tactic(auto, unfolding(crate::specs::Probability::adjusted))]
pub fn adjust(p: i64, delay: Micros, old: Micros) -> i64
    requires { nat_abs p ≤ 2 ^ 61 }
    ensures { result ≡ adjusted delay.0 old.0 p }
{
    if (delay.0 < LOW_DELAY) & (old.0 < LOW_DELAY) {
        p - p / 50
    } else if HIGH_DELAY < delay.0 {
        p + CAP
    } else {
        p
    }
}

// Rule 8. `pie` has the same line with its own limit: with the limit as a parameter neither would be plainer.
#[tactic(auto, unfolding(crate::specs::Probability::limited))]
pub fn limit(p: i64) -> Prob
    ensures { result ≡ prob (limited p) }
{
    Prob(p.clamp(0, MOST_PROB as i64) as u64)
}

// Rules 3 to 8. Rule 6 is the cap of the calm profile.
fn stepped_prob(p: Prob, delay: Micros, old: Micros, target: Micros) -> Prob
    requires { (p.0 ≤ most_prob) × (delay.0 ≤ longest) × (old.0 ≤ longest) × (target.0 ≤ 100000) }
    ensures { result ≡ prob (stepped_prob p.0 delay.0 old.0 target.0) }
{
    let s = cap_step(true, p, table_step(p, error(delay, old, target)));
    limit(adjust(p.0 as i64 + s, delay, old))
}

// Rules 2 to 8.
#[tactic(auto, unfolding(crate::specs::Probability::next_prob))]
pub fn next_prob(p: Prob, allowance: Micros, delay: Micros, old: Micros, target: Micros) -> Prob
    requires { (p.0 ≤ most_prob) × (delay.0 ≤ longest) × (old.0 ≤ longest) × (target.0 ≤ 100000) }
    ensures { result ≡ prob (next_prob p.0 allowance.0 delay.0 old.0 target.0) }
{
    if in_allowance(allowance) {
        Prob::NONE
    } else {
        stepped_prob(p, delay, old, target)
    }
}
