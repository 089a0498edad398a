// How many ticks in succession on an empty queue suffice for it to recover, by the target (Q-13).
#![tactic(auto)]

ghost use Rattle.std.specs.Prelude.{◌≡◌, false, ◌≤◌};
ghost use Rattle.units.specs.Kinds.{whole};
ghost use Rattle.pie.specs.Update.{next_prob, table};
ghost use Rattle.pie_guarantees.specs.TicksToRecover.{most_left, row_before, ticks_to_recover, ticks_until_none};

use pie::Pie;
use units::{Bytes, Micros, Prob};

// The end of the row before b's in the table of tick rule 3: each row stands beside its answer, as in `pie`'s own match.
#[tactic(auto, unfolding(pie_guarantees::specs::TicksToRecover::row_before))]
fn row_before(b: u64) -> u64
    requires { b ≤ whole }
    ensures { result ≡ row_before table b }
{
    match b {
        0..=4_294 => 0,
        4_295..=42_949 => 4_294,
        42_950..=429_496 => 42_949,
        429_497..=4_294_967 => 429_496,
        4_294_968..=42_949_672 => 4_294_967,
        42_949_673..=429_496_729 => 42_949_672,
        429_496_730.. => 429_496_729,
    }
}

// What a tick with both delays 0 leaves of p: the tick's own update, on an empty queue. A calm queue's is the same.
fn left_of(target: u64, p: u64) -> u64
    requires { (target ≤ 100000) × (p ≤ whole) }
    ensures { result ≡ next_prob false p 0 0 target }
{
    let before = Pie {
        prob: Prob(p),
        ..Pie::restarted()
    };
    before.update(false, Micros(target), Bytes(0)).prob.0
}

// The most that such a tick leaves of any probability up to b.
#[tactic(auto, unfolding(pie_guarantees::specs::TicksToRecover::most_left))]
fn most_left(target: u64, b: u64) -> u64
    requires { (target ≤ 100000) × (b ≤ whole) }
    ensures value { result ≡ most_left target b }
    ensures upper_bound { result ≤ whole }
{
    left_of(target, b).max(row_before(b))
}

// How many such ticks leave nothing of any probability: 1,000 are never reached.
#[tactic(auto, unfolding(pie_guarantees::specs::TicksToRecover::ticks_until_none))]
fn ticks_until_none(target: u64) -> u64
    requires { target ≤ 100000 }
    ensures value { result ≡ ticks_until_none 1000 target whole }
    ensures upper_bound { result ≤ 1000 }
{
    let mut b = Prob::WHOLE.0;
    for ticks in 0..1_000 {
        if b == 0 {
            return ticks;
        }
        b = most_left(target, b);
    }
    1_000
}

// With a target of 1,000 to 100,000; 0, and no Option, for any other: C gets that number, which the clause's `ticks_to_recover` names.
#[tactic(auto, unfolding(pie_guarantees::specs::TicksToRecover::ticks_to_recover))]
pub fn ticks_to_recover(target: u64) -> u64
    ensures { result ≡ ticks_to_recover target }
{
    if (1_000..=100_000).contains(&target) {
        1 + ticks_until_none(target)
    } else {
        0
    }
}

// The C entry (include/obikuteru.h).
#[unsafe(no_mangle)]
pub extern "C" fn obikuteru_ticks_to_recover(target: u64) -> u64
    ensures { result ≡ ticks_to_recover target }
{
    ticks_to_recover(target)
}
