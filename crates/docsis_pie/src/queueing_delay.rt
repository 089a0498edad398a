// The delay estimated from queued bytes, credits and the two rates: tick rule 1.
ghost use Rattle.std.specs.Prelude.{◌≡◌, ◌*◌, ◌/◌, ◌≤◌, ◌^◌};
ghost use Rattle.units.specs.Kinds.{bytes, micros};
ghost use Rattle.docsis_pie.specs.Delay.{delay_of, fast_of};

use pie::LONGEST;
use units::{Bytes, BytesPerSecond, Micros};

// The bytes that leave at the peak rate.
fn fast(queued: Bytes, credits: Bytes) -> Bytes
    ensures { result ≡ bytes (fast_of queued.0 credits.0) }
{
    Bytes(queued.0.min(credits.0))
}

// The time in which bytes leave at a rate. It is worked out 8,192 times as long: the compiler divides so large a product at once, where it
// asks of another whether it is a short number, and that cannot be foreseen.
fn time(n: u64, rate: BytesPerSecond) -> u64
    requires { (n ≤ 2 ^ 24) × (1 ≤ rate.0) }
    ensures { result ≡ n * 1000000 / rate.0 }
{
    n * 8_192_000_000 / rate.0 / 8_192
}

#[tactic(auto, unfolding(crate::specs::Delay::delay_of))]
pub fn delay(
    queued: Bytes,
    credits: Bytes,
    peak: BytesPerSecond,
    sustained: BytesPerSecond,
) -> Micros
    requires { (queued.0 ≤ 2 ^ 24) × (1 ≤ peak.0) × (1 ≤ sustained.0) }
    ensures { result ≡ micros (delay_of queued.0 credits.0 peak.0 sustained.0) }
{
    let first = fast(queued, credits);
    let rest = queued.0 - first.0;
    Micros((time(first.0, peak) + time(rest, sustained)).min(LONGEST))
}
