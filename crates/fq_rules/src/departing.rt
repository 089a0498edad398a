// Whether 9 refuses the head of a flow, and what its leaving makes of the flow and of what the flows have in common.
ghost use Rattle.std.specs.Prelude.{◌≡◌, true, ◌*◌, ◌≤◌, ◌<◌, length};
ghost use Rattle.laws.specs.Tests.{all};
ghost use Rattle.pie.specs.Constants.{largest};
ghost use Rattle.fq_state.specs.WellFormed.{flow_conditions};
ghost use Rattle.fq_rules.specs.Departure.{departed_common, departed_flow, head_word_refused};

use fq_state::{Common, Flow};
use pie::Pie;
use refusals::wrong_head;
use store::{leads_nowhere, size_at};
use units::{Bytes, Micros};

// Refusal 9: the word of the flow's head. A flow without a packet has none.
pub fn wrong_word(f: Flow, slots: u64, sizes: &[u32]) -> bool
    requires { (f.head < length sizes.now) × (f.head < 65536) × (f.count ≤ 65536) × (f.bytes ≤ largest * f.count) }
    ensures { result ≡ head_word_refused slots f sizes.now }
{
    let none = f.count == 0;
    if none {
        return true;
    }
    let wrong = wrong_head(f.backlog(), size_at(sizes, f.head) as u64);
    if wrong {
        return true;
    }
    leads_nowhere(sizes, f.head, f.count, slots)
}

// The flow after its head, of this size, has left.
pub fn departed(f: Flow, common: Common, sizes: &[u32], clock: Micros, size: Bytes) -> Flow
    requires f_value { (all (flow_conditions common f) ≡ true) × (f.head < length sizes.now) × (f.head < 65536) }
    requires clock_le_clock { (common.clock.0 ≤ clock.0) × (0 < f.count) × (size.0 ≤ f.bytes) × (size.0 ≤ largest) }
    ensures { result ≡ departed_flow f sizes.now clock.0 size.0 }
{
    let queued = f.backlog();
    let left = queued.leave(size);
    let before = f.pie();
    let measured = before.rate;
    let rate = measured.depart(clock, size, left);
    let next = Pie { rate, ..before };
    let places = f.ends();
    f.with(next, left, places.take(sizes, f.count))
}

// What the flows have in common after a packet, of this size and at this place, has left.
pub fn taken(common: Common, place: u64, clock: Micros, size: Bytes) -> Common
    requires { (0 < common.backlog.count) × (size.0 ≤ common.backlog.bytes.0) × (common.store.spare ≤ 65536) }
    ensures { result ≡ departed_common common place clock.0 size.0 }
{
    let queued = common.backlog;
    let backlog = queued.leave(size);
    let before = common.store;
    let store = before.take(place);
    Common {
        clock,
        backlog,
        store,
        ..common
    }
}
