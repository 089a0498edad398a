// The four calls on a table of counts that is lent, as C lends it: refusal 10 ahead of the others, then the flow's own call with its row.
ghost use Rattle.std.specs.Prelude.{◌≡◌, true, false, IfOk, IfErr};
ghost use Rattle.refusals.specs.Answer.{made, ticked};
ghost use Rattle.modem_flow.specs.Arrival.{stored};
ghost use Rattle.modem.specs.Answer.{accepted_answer, arrival_answer, departure_answer};
ghost use Rattle.modem.specs.Calls.{arrival, departure, flow_refused, fresh, tick};
ghost use Rattle.modem.specs.declared.FlowRefusal.TheVariants.{NoFlow};

use crate::FlowRefusal;
use crate::counting::raise;
use modem_flow::{Returned, Settings, State};
use pie::Verdict;
use refusals::Packet;
use units::{Bytes, Micros};

// Flows are 0 to 15.
const LAST_FLOW: u64 = 15;

// The place of a flow's row in the table; refusal 10 where there is none.
pub fn row_of(flow: u64) -> Result<usize, FlowRefusal>
    ensures known { IfOk result (λ row. (row ≡ flow) × (flow_refused flow ≡ false)) }
    ensures unknown { IfErr result (λ r. (r ≡ NoFlow) × (flow_refused flow ≡ true)) }
{
    let unknown = LAST_FLOW < flow;
    if unknown {
        return Err(FlowRefusal::NoFlow);
    }
    Ok(flow as usize)
}

// A fresh flow.
#[tactic(auto, unfolding(crate::specs::Calls::fresh, crate::specs::Calls::for_flow, crate::specs::Counts::counts_after))]
pub fn fresh_lent(
    counts: &mut [[u64; 5]; 16],
    flow: u64,
    settings: Settings,
    clock: Micros,
) -> Returned<FlowRefusal>
    ensures { let a = fresh counts.old flow settings clock.0 in
        (accepted_answer result.accepted made ≡ a.answer)
        × (result.state ≡ a.state)
        × (counts.new ≡ a.counts) }
{
    match row_of(flow) {
        Err(refusal) => Returned {
            accepted: Err(refusal),
            state: State::zero(),
        },
        Ok(row) => {
            let made = State::fresh(settings, clock);
            if made.accepted.is_ok() {
                counts[row] = [0; 5];
            }
            Returned {
                accepted: made.accepted.map_err(FlowRefusal::Call),
                state: made.state,
            }
        }
    }
}

// A packet of `size` bytes arrives at a flow; `u` is its random number. State, counts and tables stand apart, as C lends them.
#[tactic(auto, unfolding(crate::specs::Calls::arrival, crate::specs::Calls::for_flow, crate::specs::Counts::counts_after))]
pub fn arrival_lent(
    state: &mut State,
    counts: &mut [[u64; 5]; 16],
    flow: u64,
    handles: &mut [u32],
    sizes: &mut [u32],
    clock: Micros,
    handle: u32,
    size: Bytes,
    u: u32,
) -> Result<Verdict, FlowRefusal>
    ensures reply { let a = arrival state.old counts.old flow handles.old sizes.old clock.0 size.0 u in
        (arrival_answer result ≡ a.answer) × (state.new ≡ a.state) × (counts.new ≡ a.counts) }
    ensures tables { let a = arrival state.old counts.old flow handles.old sizes.old clock.0 size.0 u in
        (handles.new ≡ stored state.old a.answer handles.old handle)
        × (sizes.new ≡ stored state.old a.answer sizes.old size.0) }
{
    let row = row_of(flow)?;
    let v = state.arrival(counts[row], handles, sizes, clock, handle, size, u)?;
    raise(counts, row, v);
    Ok(v)
}

// The head of a flow leaves. Tables and counts are only read.
#[tactic(auto, unfolding(crate::specs::Calls::departure, crate::specs::Calls::for_flow, crate::specs::Counts::counts_after))]
pub fn departure_lent(
    state: &mut State,
    counts: &[[u64; 5]; 16],
    flow: u64,
    handles: &[u32],
    sizes: &[u32],
    clock: Micros,
) -> Result<Packet, FlowRefusal>
    ensures { let a = departure state.old counts.now flow handles.now sizes.now clock.0 in
        (departure_answer result ≡ a.answer) × (state.new ≡ a.state) × (counts.now ≡ a.counts) }
{
    let row = row_of(flow)?;
    let packet = state.departure(counts[row], handles, sizes, clock)?;
    Ok(packet)
}

// The periodic update of a flow, with its credits.
#[tactic(auto, unfolding(crate::specs::Calls::tick, crate::specs::Calls::for_flow, crate::specs::Counts::counts_after))]
pub fn tick_lent(
    state: &mut State,
    counts: &[[u64; 5]; 16],
    flow: u64,
    clock: Micros,
    credits: Bytes,
) -> Result<(), FlowRefusal>
    ensures { let a = tick state.old counts.now flow clock.0 credits.0 in
        (accepted_answer result ticked ≡ a.answer) × (state.new ≡ a.state) × (counts.now ≡ a.counts) }
{
    let row = row_of(flow)?;
    state.tick(counts[row], clock, credits)?;
    Ok(())
}
