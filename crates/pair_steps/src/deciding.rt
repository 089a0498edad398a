// The drop decision at records that are well formed.
ghost use Rattle.std.specs.Prelude.{◌≡◌, ◌≤◌, get_or};
ghost use Rattle.units.specs.Kinds.{prob};
ghost use Rattle.pie.specs.Constants.{largest};
ghost use Rattle.pair_rules.specs.Arrival.{arrived_pie, verdict_of};
ghost use Rattle.pair_words.specs.Words.{records_of, state_of};
ghost use Rattle.pair_steps.specs.Lent.{Formed};

use pair_rules::Which;
use pair_words::{ACCUMULATED, BUFFER, BYTES, COUNT, PIE, TARGET, shared_facing};
use pie::{Decided, Verdict};
use pie_words::{pie_at, spares};
use units::{Micros, Prob};

// A verdict that leaves the accumulated probability.
fn undrawn(w: &[u64; 21], verdict: Verdict) -> Decided
    ensures { (result.verdict ≡ verdict) × (result.accumulated ≡ prob (get_or w.now 7 0)) }
{
    let accumulated = Prob(w[ACCUMULATED]);
    Decided {
        verdict,
        accumulated,
    }
}

// Rules 1 to 7.
pub(crate) fn decided(
    shared: &[u64; 6],
    own: &[u64; 21],
    other: &[u64; 21],
    which: Which,
    size: u64,
    ecn: bool,
    u: u32,
) -> Decided
    requires formed { Formed which shared.now own.now other.now }
    requires size_le_largest { size ≤ largest }
    ensures verdict_value { result.verdict ≡ verdict_of (records_of which shared.now own.now other.now) which size ecn u }
    ensures accumulated_value { result.accumulated ≡ (arrived_pie (state_of own.now) result.verdict).accumulated }
{
    if own[BUFFER] < own[BYTES] + size {
        return undrawn(own, Verdict::DroppedBytes);
    }
    if shared_facing(shared, which).full(own[COUNT], other[COUNT]) {
        return undrawn(own, Verdict::DroppedSlots);
    }
    if spares(own, PIE, Micros(own[TARGET])) {
        return undrawn(own, Verdict::Enqueued);
    }
    pie_at(own, PIE).draw(ecn, u)
}
