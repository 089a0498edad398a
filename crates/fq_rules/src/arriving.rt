// What an arrival with a verdict makes of its flow, and of what the flows have in common.
ghost use Rattle.std.specs.Prelude.{◌≡◌, ℕ, ◌≤◌, ◌<◌, length};
ghost use Rattle.pie.specs.Constants.{largest, most_verdicts};
ghost use Rattle.pie.specs.Verdicts.{total};
ghost use Rattle.fq_rules.specs.Arrival.{arrived_common, arrived_flow, arrived_pie};

use fq_state::{Common, Flow};
use pie::{Pie, Verdict, raise};
use units::{Bytes, Micros, Prob};

// The flow after an arrival with this verdict; where it admits, the packet stands at `place`.
pub fn arrived(f: Flow, size: Bytes, place: u64, v: Verdict, accumulated: Prob) -> Flow
    requires { (f.count ≤ 65536) × (f.bytes ≤ 16777216) × (size.0 ≤ largest) }
    ensures { (target : ℕ) → accumulated ≡ (arrived_pie target f v).accumulated → result ≡ arrived_flow target f size.0 place v }
{
    let before = f.pie();
    let pie = Pie {
        accumulated,
        ..before
    };
    let queued = f.backlog();
    let places = f.ends();
    let admits = v.admits();
    if admits {
        return f.with(pie, queued.enter(size), places.put(f.count, place));
    }
    f.with(pie, queued, places)
}

// What the flows have in common after an arrival with this verdict.
pub fn counted(common: Common, sizes: &[u32], clock: Micros, size: Bytes, v: Verdict) -> Common
    requires verdicts_bound { (total common.verdicts < most_verdicts) × (size.0 ≤ largest) }
    requires count_bound { (common.backlog.count ≤ 65536) × (common.backlog.bytes.0 ≤ 16777216) }
    requires freed_in_bounds { (common.store.freed < length sizes.now) × (common.store.freed < 65536) × (common.store.used ≤ 65536) }
    ensures { result ≡ arrived_common common sizes.now clock.0 size.0 v }
{
    let counts = common.verdicts;
    let verdicts = raise(counts, v);
    let admits = v.admits();
    if admits {
        let queued = common.backlog;
        let backlog = queued.enter(size);
        let before = common.store;
        let store = before.put(sizes);
        return Common {
            clock,
            backlog,
            store,
            verdicts,
            ..common
        };
    }
    Common {
        clock,
        verdicts,
        ..common
    }
}
