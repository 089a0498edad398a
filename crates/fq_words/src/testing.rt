// Whether a record is well formed. Any values of its words are taken.
ghost use Rattle.std.specs.Prelude.{◌≡◌, MatchOption, true, false};
ghost use Rattle.laws.specs.Tests.{all};
ghost use Rattle.pie.specs.Verdicts.{total};
ghost use Rattle.fq_state.specs.State.{counts_of, each_bytes};
ghost use Rattle.fq_state.specs.WellFormed.{common_conditions, flows_fit, well_formed};
ghost use Rattle.fq_words.specs.Words.{flows_of, lent, state_of};

use crate::{decode, decode_lists, flow_at};
use fq_state::Common;
use pie::Backlog;
use schedule::Lists;
use units::Bytes;

// Tests every flow and adds them up; notes each flow's count.
fn add_up(flows: &[u64; 768], counts: &mut [u32; 64], c: Common) -> Option<Backlog>
    requires { all (common_conditions c) ≡ true }
    ensures { MatchOption result (flows_fit c (flows_of flows.now) ≡ false)
        (λ sum. (flows_fit c (flows_of flows.now) ≡ true)
        × (sum.count ≡ total (counts_of (flows_of flows.now)))
        × (sum.bytes.0 ≡ total (each_bytes (flows_of flows.now)))
        × (counts.new ≡ counts_of (flows_of flows.now))) }
{
    let mut count: u64 = 0;
    let mut bytes: u64 = 0;
    for i in 0..64 {
        let f = flow_at(flows, i);
        let fine = f.fits(c);
        if !fine {
            return None;
        }
        counts[i] = f.count as u32;
        count = count + f.count;
        bytes = bytes + f.bytes;
    }
    Some(Backlog {
        count,
        bytes: Bytes(bytes),
    })
}

fn parts_fit(
    common: Common,
    lists: Lists,
    order: &[u64; 64],
    deficits: &[u32; 64],
    flows: &[u64; 768],
    counts: &mut [u32; 64],
) -> bool
    ensures value { result ≡ well_formed (state_of common lists order.now deficits.now flows.now) }
    ensures counts_after { result ≡ true → counts.new ≡ counts_of (flows_of flows.now) }
{
    let common_fits = common.fits();
    if !common_fits {
        return false;
    }
    let Some(sums) = add_up(flows, counts, common) else {
        return false;
    };
    let queued = common.backlog;
    let settings = common.settings;
    let same = (sums.count == queued.count)
        & (sums.bytes.0 == queued.bytes.0)
        & (queued.bytes.0 <= settings.buffer.0);
    if !same {
        return false;
    }
    schedule::fits(order, deficits, counts, lists)
}

// Notes each flow's count on the way, for the choosing.
pub fn fits(
    common: &[u64; 19],
    order: &[u64; 64],
    deficits: &[u32; 64],
    flows: &[u64; 768],
    counts: &mut [u32; 64],
) -> bool
    ensures value { result ≡ well_formed (lent common.now order.now deficits.now flows.now) }
    ensures counts_after { result ≡ true → counts.new ≡ counts_of (flows_of flows.now) }
{
    let c = decode(*common);
    let l = decode_lists(*common);
    parts_fit(c, l, order, deficits, flows, counts)
}
