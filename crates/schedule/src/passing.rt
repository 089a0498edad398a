// The choosing as far as it writes nothing: emptied flows at the head of a list are passed.
ghost use Rattle.std.specs.Prelude.{◌≡◌, IfOk, true, [], ◌<◌};
ghost use Rattle.schedule.specs.Choosing.{choose};
ghost use Rattle.schedule.specs.Passing.{found_by, head_of, passed_to, without_head};
ghost use Rattle.schedule.specs.Ring.{schedule_of, two_lists};
ghost use Rattle.schedule.specs.WellFormed.{HoldsFlows, lists_fit};

use crate::choosing::is_negative;
use crate::{Lists, MOST_LOOKS};

// The head of the new list, or of the old list where the new one is empty.
fn head(order: &[u64; 64], lists: Lists) -> usize
    requires { HoldsFlows lists order.now × (0 < lists.listed) }
    ensures { (result ≡ head_of (schedule_of lists order.now [])) × (result < 64) }
{
    let first = lists.first;
    let old = lists.old;
    let new = old < lists.listed;
    if new {
        let at = (first + old) % 64;
        return order[at] as usize;
    }
    order[first] as usize
}

// Where the lists stand once the head, an emptied flow, is passed.
fn without_head(lists: Lists) -> Lists
    requires { (lists_fit lists ≡ true) × (0 < lists.listed) }
    ensures { result ≡ without_head lists }
{
    let first = lists.first;
    let old = lists.old;
    let listed = lists.listed;
    let new = old < listed;
    if new {
        return Lists {
            first,
            old: old + 1,
            listed,
        };
    }
    Lists {
        first: (first + 1) % 64,
        old: old - 1,
        listed: listed - 1,
    }
}

// Looks at the heads of the lists until a flow is found: the flow, or how many looks are left at one whose deficit is below 0, since to
// move that one is to write. With no flow in either list it is flow 0 and not none, as `choose_in` (specs/Choosing) chooses.
pub fn pass(
    order: &[u64; 64],
    deficits: &[u32; 64],
    counts: &[u32; 64],
    lists: &mut Lists,
) -> Result<usize, usize>
    requires { HoldsFlows lists.now order.now }
    ensures s_value { let s = schedule_of lists.entry.now order.now deficits.now in
        found_by (choose counts.now (two_lists s)) s
        ≡ passed_to counts.now result (schedule_of lists.exit.now order.now deficits.now) }
    ensures flow_bound { IfOk result (λ flow. flow < 64) }
    ensures places { HoldsFlows lists.exit.now order.now }
{
    for passed in 0..MOST_LOOKS {
        let none = lists.listed == 0;
        if none {
            return Ok(0);
        }
        let flow = head(order, *lists);
        let negative = is_negative(deficits[flow]);
        if negative {
            return Err(MOST_LOOKS - passed);
        }
        let empty = counts[flow] == 0;
        if !empty {
            return Ok(flow);
        }
        *lists = without_head(*lists);
    }
    Err(0)
}
