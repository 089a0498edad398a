// A flow enters the new list.
ghost use Rattle.std.specs.Prelude.{◌≡◌, true, [], ◌<◌};
ghost use Rattle.schedule.specs.Entering.{is_listed};
ghost use Rattle.schedule.specs.Ring.{entered_in, schedule_of, two_lists};
ghost use Rattle.schedule.specs.WellFormed.{lists_fit};

use crate::{Lists, ONE_QUANTUM};

// Whether a flow is in one of the lists.
pub fn is_listed(order: &[u64; 64], lists: Lists, flow: u64) -> bool
    requires { lists_fit lists ≡ true }
    ensures { result ≡ is_listed (two_lists (schedule_of lists order.now [])) flow }
{
    let first = lists.first;
    for i in 0..lists.listed {
        let here = order[(first + i) % 64] == flow;
        if here {
            return true;
        }
    }
    false
}

// A flow in neither list enters at the new list's end, with one quantum.
pub fn enter(order: &mut [u64; 64], deficits: &mut [u32; 64], lists: &mut Lists, flow: usize)
    requires { (lists_fit lists.now ≡ true) × (flow < 64) }
    ensures { schedule_of lists.exit.now order.new deficits.new
        ≡ entered_in (schedule_of lists.entry.now order.old deficits.old) flow }
{
    let end = (lists.first + lists.listed) % 64;
    order[end] = flow as u64;
    deficits[flow] = ONE_QUANTUM;
    lists.listed = lists.listed + 1;
}
