// Whether lists and deficits are well formed.
ghost use Rattle.std.specs.Prelude.{◌≡◌, MatchOption, true, false, ℕ, ◌<◌, get_or};
ghost use Rattle.schedule.specs.Ring.{ring_of, schedule_of};
ghost use Rattle.schedule.specs.TwoLists.{occurs};
ghost use Rattle.schedule.specs.WellFormed.{are_flows, every, flow_fits, lists_fit, well_listed};

use crate::{Lists, ONE_QUANTUM};

// How often each flow is listed, where only flows are.
fn count_listed(order: &[u64; 64], lists: Lists) -> Option<[u32; 64]>
    requires { lists_fit lists ≡ true }
    ensures { let entries = ring_of order.now lists.first lists.listed in
        MatchOption result (are_flows entries ≡ false)
        (λ times. (are_flows entries ≡ true) × ((flow : ℕ) → flow < 64 → get_or times flow 0 ≡ occurs flow entries)) }
{
    let first = lists.first;
    let mut times = [0u32; 64];
    for i in 0..lists.listed {
        let x = order[(first + i) % 64] as usize;
        if 64 <= x {
            return None;
        }
        times[x] = times[x] + 1;
    }
    Some(times)
}

fn every_flow_fits(times: &[u32; 64], deficits: &[u32; 64], counts: &[u32; 64]) -> bool
    ensures { result ≡ every 64 (λ flow.
        flow_fits (get_or times.now flow 0) (get_or counts.now flow 0) (get_or deficits.now flow 0)) }
{
    let mut fit = true;
    for flow in 0..64 {
        let n = times[flow];
        let count = counts[flow];
        let deficit = deficits[flow];
        let fits = (n <= 1) & ((count == 0) | (1 <= n)) & (deficit <= ONE_QUANTUM);
        fit = fit & fits;
    }
    fit
}

// The counts are the flows' packets.
pub fn fits(order: &[u64; 64], deficits: &[u32; 64], counts: &[u32; 64], lists: Lists) -> bool
    ensures { result ≡ well_listed counts.now (schedule_of lists order.now deficits.now) }
{
    let fit = (lists.first < 64) & (lists.old <= lists.listed) & (lists.listed <= 64);
    if !fit {
        return false;
    }
    match count_listed(order, lists) {
        None => false,
        Some(times) => every_flow_fits(&times, deficits, counts),
    }
}
