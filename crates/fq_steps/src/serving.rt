// A flow is served.
ghost use Rattle.std.specs.Prelude.{◌≡◌, IfOk, ◌<◌, length};
ghost use Rattle.refusals.specs.Rows.{first_refusal};
ghost use Rattle.fq_state.specs.State.{counts_of};
ghost use Rattle.fq_rules.specs.Answer.{departure_answer};
ghost use Rattle.fq_rules.specs.Departure.{before_choosing, departed_sizes, departure};
ghost use Rattle.fq_words.specs.Words.{flows_of, state_of};

use crate::picking::pick;
use fq_rules::{Served, departed, taken};
use fq_state::Common;
use fq_words::{flow_at, set_flow};
use refusals::{Packet, Refusal};
use schedule::{Lists, charge};
use store::{size_at, write_freed};
use units::{Bytes, Micros};

// A flow is chosen, and its head leaves, or is refused by 9. The counts are the flows'.
pub(crate) fn serve(
    common: &mut Common,
    lists: &mut Lists,
    order: &mut [u64; 64],
    deficits: &mut [u32; 64],
    flows: &mut [u64; 768],
    counts: &[u32; 64],
    handles: &[u32],
    sizes: &mut [u32],
    clock: Micros,
) -> Result<Served, Refusal>
    requires clock_value { first_refusal (before_choosing (state_of common.old lists.now order.old deficits.old flows.old)
        (length handles.now) (length sizes.old) clock.0) ≡ 0 }
    requires counts_value { counts.now ≡ counts_of (flows_of flows.old) }
    ensures fact { let s = state_of common.old lists.entry.now order.old deficits.old flows.old in
        let a = departure s handles.now sizes.old clock.0 in
        (departure_answer result ≡ a.answer)
        × (state_of common.new lists.exit.now order.new deficits.new flows.new ≡ a.state)
        × (sizes.new ≡ departed_sizes s a.answer sizes.old) }
    ensures flow_bound { IfOk result (λ served. served.flow < 64) }
{
    let before = *common;
    let slots = before.settings.slots;
    let flow = pick(order, deficits, flows, counts, sizes, slots, lists)?;
    let f = flow_at(flows, flow);
    let handle = handles[f.head as usize];
    let size = size_at(sizes, f.head);
    let bytes = Bytes(size as u64);
    let next = departed(f, before, sizes, clock, bytes);
    set_flow(flows, flow, next);
    write_freed(sizes, f.head, before.store.freed);
    charge(deficits, flow, size);
    *common = taken(before, f.head, clock, bytes);
    Ok(Served {
        flow: flow as u32,
        packet: Packet { handle, size },
    })
}
