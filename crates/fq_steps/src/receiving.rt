// A packet is received.
ghost use Rattle.std.specs.Prelude.{◌≡◌, cond, not, true, List, ℕ, ◌<◌, length};
ghost use Rattle.refusals.specs.Rows.{first_refusal};
ghost use Rattle.schedule.specs.Entering.{is_listed};
ghost use Rattle.schedule.specs.Ring.{entered_in, schedule_of, two_lists};
ghost use Rattle.schedule.specs.WellFormed.{lists_fit};
ghost use Rattle.fq_rules.specs.Answer.{arrival_answer};
ghost use Rattle.fq_rules.specs.Arrival.{arrival, arrived_handles, arrived_sizes, before_verdict, flow_number};
ghost use Rattle.fq_words.specs.Words.{state_of};

use fq_rules::{arrived, counted, decide, lost};
use fq_state::Common;
use fq_words::{flow_at, set_flow};
use pie::Verdict;
use refusals::Refusal;
use schedule::{Lists, enter, is_listed};
use store::write_packet;
use units::{Bytes, Micros};

// A flow that had `count` packets is listed: with any, it is already.
fn list(order: &mut [u64; 64], deficits: &mut [u32; 64], lists: &mut Lists, flow: usize, count: u64)
    requires lists_value { (lists_fit lists.now ≡ true) × (flow < 64) }
    requires flow_value { 0 < count → is_listed (two_lists (schedule_of lists.now order.old deficits.old)) flow ≡ true }
    ensures { let s = schedule_of lists.entry.now order.old deficits.old in
        schedule_of lists.exit.now order.new deficits.new ≡ cond (not (is_listed (two_lists s) flow)) (entered_in s flow) s }
{
    if 0 < count {
        return;
    }
    let listed = is_listed(order, *lists, flow as u64);
    if listed {
        return;
    }
    enter(order, deficits, lists, flow);
}

// The packet is decided on, and refused by 9, or counted; where its verdict admits, it is written and its flow listed. `flow` is that of
// its key.
pub(crate) fn receive(
    common: &mut Common,
    lists: &mut Lists,
    order: &mut [u64; 64],
    deficits: &mut [u32; 64],
    flows: &mut [u64; 768],
    handles: &mut [u32],
    sizes: &mut [u32],
    clock: Micros,
    flow: usize,
    handle: u32,
    size: Bytes,
    ecn: bool,
    u: u32,
) -> Result<Verdict, Refusal>
    requires size_value { first_refusal (before_verdict (state_of common.old lists.now order.old deficits.old flows.old)
        (length handles.old) (length sizes.old) clock.0 size.0) ≡ 0 }
    requires flow_bound { flow < 64 }
    ensures { let s = state_of common.old lists.entry.now order.old deficits.old flows.old in
        (key : List ℕ) → flow ≡ flow_number s key →
        let a = arrival s handles.old sizes.old clock.0 key size.0 ecn u in
        (arrival_answer result ≡ a.answer)
        × (state_of common.new lists.exit.now order.new deficits.new flows.new ≡ a.state)
        × (handles.new ≡ arrived_handles s a.answer handles.old handle)
        × (sizes.new ≡ arrived_sizes s a.answer sizes.old key size.0) }
{
    let before = *common;
    let f = flow_at(flows, flow);
    let decided = decide(before, f, size, ecn, u);
    let v = decided.verdict;
    let nowhere = lost(before, sizes, v);
    if nowhere {
        return Err(Refusal::Head);
    }
    let store = before.store;
    let place = store.free_place();
    set_flow(flows, flow, arrived(f, size, place, v, decided.accumulated));
    *common = counted(before, sizes, clock, size, v);
    let admits = v.admits();
    if admits {
        let word = size.0 as u32;
        write_packet(handles, sizes, f.ends(), f.count, place, handle, word);
        list(order, deficits, lists, flow, f.count);
    }
    Ok(v)
}
