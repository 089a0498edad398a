// The verdict on a packet that arrives, and whether 9 refuses it.
ghost use Rattle.std.specs.Prelude.{◌≡◌, true, ◌≤◌, ◌<◌, length};
ghost use Rattle.laws.specs.Tests.{all};
ghost use Rattle.pie.specs.Constants.{largest};
ghost use Rattle.fq_state.specs.WellFormed.{common_conditions, flow_conditions};
ghost use Rattle.fq_rules.specs.Arrival.{arrived_pie, freed_refused, verdict_of};

use fq_state::{Common, Flow};
use pie::{Decided, Verdict};
use store::leads_nowhere;
use units::Bytes;

// Rules 1 to 7: 1 and 2 read all flows together, the others this flow alone.
pub fn decide(common: Common, f: Flow, size: Bytes, ecn: bool, u: u32) -> Decided
    requires common_value { (all (common_conditions common) ≡ true) × (all (flow_conditions common f) ≡ true) }
    requires bytes_bound { (common.backlog.bytes.0 ≤ 16777216) × (size.0 ≤ largest) }
    ensures verdict_value { result.verdict ≡ verdict_of common f size.0 ecn u }
    ensures accumulated_value { result.accumulated ≡ (arrived_pie common.settings.target.0 f result.verdict).accumulated }
{
    let settings = common.settings;
    let queued = common.backlog;
    let pie = f.pie();
    let accumulated = pie.accumulated;
    let bytes_full = settings.buffer.0 < queued.bytes.0 + size.0;
    if bytes_full {
        return Decided {
            verdict: Verdict::DroppedBytes,
            accumulated,
        };
    }
    let slots_full = queued.count == settings.slots;
    if slots_full {
        return Decided {
            verdict: Verdict::DroppedSlots,
            accumulated,
        };
    }
    pie.decide(settings.target, Bytes(f.bytes), ecn, u)
}

// Refusal 9: the verdict admits, and the next free slot's link is one to no slot.
pub fn lost(common: Common, sizes: &[u32], v: Verdict) -> bool
    requires { (common.store.freed < length sizes.now) × (common.store.freed < 65536) }
    ensures { result ≡ freed_refused common sizes.now v }
{
    let admits = v.admits();
    if admits {
        let store = common.store;
        return leads_nowhere(sizes, store.freed, store.spare, common.settings.slots);
    }
    false
}
