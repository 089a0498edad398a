// The flow that is served next.
ghost use Rattle.std.specs.Prelude.{◌≡◌, true, IfSome, List, ℕ, ◌-◌, ◌<◌, ◌≤◌, ltb, get_or, length, set};
ghost use Rattle.schedule.specs.Choosing as rule;
ghost use Rattle.schedule.specs.Choosing.{at_new, at_old, choose_in};
ghost use Rattle.schedule.specs.Passing as spec;
ghost use Rattle.schedule.specs.Passing.{after_look, found_or};
ghost use Rattle.schedule.specs.Ring.{Schedule, chosen_in, ring_of, schedule_of, two_lists};
ghost use Rattle.schedule.specs.TwoLists.{zero_deficit};
ghost use Rattle.schedule.specs.WellFormed.{HoldsFlows, are_flows, lists_fit};

use crate::{Lists, QUANTUM, ZERO_DEFICIT};

// Whether a deficit is below 0.
pub(crate) fn is_negative(deficit: u32) -> bool
    ensures { result ≡ ltb deficit zero_deficit }
{
    deficit < ZERO_DEFICIT
}

// A look at the head of the new list, this flow: the flow where choosing ends at it.
fn look_new(
    deficits: &mut [u32; 64],
    counts: &[u32; 64],
    lists: &mut Lists,
    flow: usize,
) -> Option<usize>
    requires { (lists_fit lists.now ≡ true) × (lists.now.old < lists.now.listed) × (flow < 64) }
    ensures by_index { (order rest old : List ℕ) (again : Schedule → spec.Found) →
        let s = schedule_of lists.entry.now order deficits.old in
        let t = schedule_of lists.exit.now order deficits.new in
        after_look again s (at_new counts.now flow rest old s.deficits) ≡ found_or again result t }
    ensures flow_bound { IfSome result (λ found. found < 64) }
    ensures places { (lists.exit.now.first ≡ lists.entry.now.first)
        × (lists.exit.now.old ≤ lists.entry.now.listed) × (lists.exit.now.listed ≡ lists.entry.now.listed) }
{
    let next = lists.old + 1;
    let deficit = deficits[flow];
    let negative = is_negative(deficit);
    if negative {
        deficits[flow] = deficit + QUANTUM;
        lists.old = next;
        return None;
    }
    let empty = counts[flow] == 0;
    if empty {
        lists.old = next;
        return None;
    }
    Some(flow)
}

// The same of the head of the old list, this flow, where the new list is empty.
fn look_old(
    order: &mut [u64; 64],
    deficits: &mut [u32; 64],
    counts: &[u32; 64],
    lists: &mut Lists,
    flow: usize,
) -> Option<usize>
    requires lists_value { (lists_fit lists.now ≡ true) × (lists.now.old ≡ lists.now.listed) × (0 < lists.now.listed) × (flow < 64) }
    requires listed_value { (are_flows (ring_of order.old lists.now.first lists.now.listed) ≡ true)
        × (flow ≡ get_or order.old lists.now.first 0) }
    ensures by_index { (rest : List ℕ) (again : Schedule → spec.Found) →
        let s = schedule_of lists.entry.now order.old deficits.old in
        let t = schedule_of lists.exit.now order.new deficits.new in
        after_look again s (at_old counts.now flow rest s.deficits) ≡ found_or again result t }
    ensures flow_bound { IfSome result (λ found. found < 64) }
    ensures places { HoldsFlows lists.exit.now order.new × (length order.new ≡ length order.old) }
{
    let first = lists.first;
    let listed = lists.listed;
    let next = (first + 1) % 64;
    let deficit = deficits[flow];
    let negative = is_negative(deficit);
    if negative {
        let end = (first + listed) % 64;
        deficits[flow] = deficit + QUANTUM;
        order[end] = flow as u64;
        lists.first = next;
        return None;
    }
    let empty = counts[flow] == 0;
    if empty {
        *lists = Lists {
            first: next,
            old: lists.old - 1,
            listed: listed - 1,
        };
        return None;
    }
    Some(flow)
}

// A look at the head of the new list, or of the old list where the new one is empty. With no flow in either list choosing ends at flow 0.
fn look(
    order: &mut [u64; 64],
    deficits: &mut [u32; 64],
    counts: &[u32; 64],
    lists: &mut Lists,
) -> Option<usize>
    requires { HoldsFlows lists.now order.old }
    ensures s_after { (again : Schedule → spec.Found) →
        let s = schedule_of lists.entry.now order.old deficits.old in
        let t = schedule_of lists.exit.now order.new deficits.new in
        after_look again s (rule.look counts.now (two_lists s)) ≡ found_or again result t }
    ensures flow_bound { IfSome result (λ found. found < 64) }
    ensures places { HoldsFlows lists.exit.now order.new × (length order.new ≡ length order.old) }
{
    let first = lists.first;
    let old = lists.old;
    let listed = lists.listed;
    let new = old < listed;
    if new {
        let at = (first + old) % 64;
        let flow = order[at] as usize;
        return look_new(deficits, counts, lists, flow);
    }
    let none = listed == 0;
    if none {
        return Some(0);
    }
    let flow = order[first] as usize;
    look_old(order, deficits, counts, lists, flow)
}

// Looks at the heads of the lists until a flow is found, at most so many times, and moves flows as it goes: the flow, and 0 where the looks
// are used up.
pub fn choose(
    order: &mut [u64; 64],
    deficits: &mut [u32; 64],
    counts: &[u32; 64],
    lists: &mut Lists,
    looks: usize,
) -> usize
    requires { HoldsFlows lists.now order.old }
    ensures fact { let s = schedule_of lists.entry.now order.old deficits.old in
        let t = schedule_of lists.exit.now order.new deficits.new in
        let c = choose_in looks counts.now (two_lists s) in
        (result ≡ c.flow) × (two_lists t ≡ c.lists) × (t ≡ chosen_in s c) }
    ensures flow_bound { result < 64 }
{
    for _ in 0..looks {
        let found = look(order, deficits, counts, lists);
        if let Some(flow) = found {
            return flow;
        }
    }
    0
}

// A departure of this size is taken from the deficit of the flow that is served.
pub fn charge(deficits: &mut [u32; 64], flow: usize, size: u32)
    requires { flow < 64 }
    ensures { deficits.new ≡ set deficits.old flow (get_or deficits.old flow 0 - size) }
{
    deficits[flow] = deficits[flow].saturating_sub(size);
}
