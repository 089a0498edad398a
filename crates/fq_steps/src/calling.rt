// The calls, on a record that is well formed.
ghost use Rattle.std.specs.Prelude.{◌≡◌, IfOk, true, List, ℕ, ◌<◌};
ghost use Rattle.pie.specs.Constants.{most_verdicts};
ghost use Rattle.pie.specs.Verdicts.{total};
ghost use Rattle.fq_state.specs.State.{counts_of};
ghost use Rattle.fq_state.specs.WellFormed.{well_formed};
ghost use Rattle.fq_rules.specs.Answer.{accepted_answer, arrival_answer, departure_answer, ticked};
ghost use Rattle.fq_rules.specs.Arrival.{arrival, arrived_handles, arrived_sizes, flow_number};
ghost use Rattle.fq_rules.specs.Departure.{departed_sizes, departure};
ghost use Rattle.fq_rules.specs.Tick.{tick};
ghost use Rattle.fq_words.specs.Words.{flows_of, state_of};

use crate::checking::{check_arrival, check_departure, check_tick};
use crate::receiving::receive;
use crate::serving::serve;
use crate::ticking::tick_all;
use fq_rules::Served;
use fq_state::Common;
use pie::Verdict;
use refusals::Refusal;
use schedule::Lists;
use units::{Bytes, Micros};

// A packet of this flow, of `size` bytes, arrives; `u` is its random number. Where `room`, the counts are not full.
pub(crate) fn arrival_of(
    common: &mut Common,
    lists: &mut Lists,
    order: &mut [u64; 64],
    deficits: &mut [u32; 64],
    flows: &mut [u64; 768],
    handles: &mut [u32],
    sizes: &mut [u32],
    clock: Micros,
    flow: usize,
    handle: u32,
    size: Bytes,
    ecn: bool,
    u: u32,
    room: bool,
) -> Result<Verdict, Refusal>
    requires flows_value { well_formed (state_of common.old lists.now order.old deficits.old flows.old) ≡ true }
    requires flow_bound { flow < 64 }
    requires verdicts_bound { (room ≡ true) → (total common.old.verdicts < most_verdicts) }
    ensures { let s = state_of common.old lists.entry.now order.old deficits.old flows.old in
        (key : List ℕ) → flow ≡ flow_number s key →
        let a = arrival s handles.old sizes.old clock.0 key size.0 ecn u in
        (arrival_answer result ≡ a.answer)
        × (state_of common.new lists.exit.now order.new deficits.new flows.new ≡ a.state)
        × (handles.new ≡ arrived_handles s a.answer handles.old handle)
        × (sizes.new ≡ arrived_sizes s a.answer sizes.old key size.0) }
{
    check_arrival(*common, handles, sizes, clock, size, room)?;
    receive(
        common, lists, order, deficits, flows, handles, sizes, clock, flow, handle, size, ecn, u,
    )
}

// The packet that is served next leaves. The counts are the flows'.
pub(crate) fn departure_of(
    common: &mut Common,
    lists: &mut Lists,
    order: &mut [u64; 64],
    deficits: &mut [u32; 64],
    flows: &mut [u64; 768],
    counts: &[u32; 64],
    handles: &[u32],
    sizes: &mut [u32],
    clock: Micros,
) -> Result<Served, Refusal>
    requires flows_value { well_formed (state_of common.old lists.now order.old deficits.old flows.old) ≡ true }
    requires counts_value { counts.now ≡ counts_of (flows_of flows.old) }
    ensures fact { let s = state_of common.old lists.entry.now order.old deficits.old flows.old in
        let a = departure s handles.now sizes.old clock.0 in
        (departure_answer result ≡ a.answer)
        × (state_of common.new lists.exit.now order.new deficits.new flows.new ≡ a.state)
        × (sizes.new ≡ departed_sizes s a.answer sizes.old) }
    ensures flow_bound { IfOk result (λ served. served.flow < 64) }
{
    check_departure(*common, handles, sizes, clock)?;
    serve(
        common, lists, order, deficits, flows, counts, handles, sizes, clock,
    )
}

// The periodic update of all flows.
pub(crate) fn tick_of(
    common: &mut Common,
    lists: Lists,
    order: &[u64; 64],
    deficits: &[u32; 64],
    flows: &mut [u64; 768],
    clock: Micros,
) -> Result<(), Refusal>
    requires { well_formed (state_of common.old lists order.now deficits.now flows.old) ≡ true }
    ensures { let s = state_of common.old lists order.now deficits.now flows.old in
        let a = tick s clock.0 in
        (accepted_answer result ticked ≡ a.answer)
        × (state_of common.new lists order.now deficits.now flows.new ≡ a.state) }
{
    check_tick(*common, clock)?;
    tick_all(flows, *common);
    common.clock = clock;
    common.last = clock;
    Ok(())
}
