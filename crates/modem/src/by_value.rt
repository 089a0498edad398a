// The four calls as documents 01 and 02 ask for them: the table of counts goes over and back with each call, by value.
ghost use Rattle.std.specs.Prelude.{◌≡◌};
ghost use Rattle.refusals.specs.Answer.{made, ticked};
ghost use Rattle.modem_flow.specs.Arrival.{stored};
ghost use Rattle.modem.specs.Answer.{accepted_answer, arrival_answer, departure_answer};
ghost use Rattle.modem.specs.Calls.{arrival, departure, fresh, tick};

use crate::calls::{arrival_lent, departure_lent, fresh_lent, tick_lent};
use crate::{Counted, FlowRefusal};
use modem_flow::{Returned, Settings, State};
use pie::Verdict;
use refusals::Packet;
use units::{Bytes, Micros};

// A fresh flow.
pub fn fresh(
    counts: [[u64; 5]; 16],
    flow: u64,
    settings: Settings,
    clock: Micros,
) -> Counted<Returned<FlowRefusal>>
    ensures { let a = fresh counts flow settings clock.0 in
        (accepted_answer result.answer.accepted made ≡ a.answer)
        × (result.answer.state ≡ a.state)
        × (result.counts ≡ a.counts) }
{
    let mut next = counts;
    let answer = fresh_lent(&mut next, flow, settings, clock);
    Counted {
        answer,
        counts: next,
    }
}

// A packet of `size` bytes arrives at a flow; `u` is its random number.
pub fn arrival(
    state: &mut State,
    counts: [[u64; 5]; 16],
    flow: u64,
    handles: &mut [u32],
    sizes: &mut [u32],
    clock: Micros,
    handle: u32,
    size: Bytes,
    u: u32,
) -> Counted<Result<Verdict, FlowRefusal>>
    ensures reply { let a = arrival state.old counts flow handles.old sizes.old clock.0 size.0 u in
        (arrival_answer result.answer ≡ a.answer) × (state.new ≡ a.state) × (result.counts ≡ a.counts) }
    ensures tables { let a = arrival state.old counts flow handles.old sizes.old clock.0 size.0 u in
        (handles.new ≡ stored state.old a.answer handles.old handle)
        × (sizes.new ≡ stored state.old a.answer sizes.old size.0) }
{
    let mut next = counts;
    let answer = arrival_lent(
        state, &mut next, flow, handles, sizes, clock, handle, size, u,
    );
    Counted {
        answer,
        counts: next,
    }
}

// The head of a flow leaves. The tables are only read.
pub fn departure(
    state: &mut State,
    counts: [[u64; 5]; 16],
    flow: u64,
    handles: &[u32],
    sizes: &[u32],
    clock: Micros,
) -> Counted<Result<Packet, FlowRefusal>>
    ensures { let a = departure state.old counts flow handles.now sizes.now clock.0 in
        (departure_answer result.answer ≡ a.answer) × (state.new ≡ a.state) × (result.counts ≡ a.counts) }
{
    let answer = departure_lent(state, &counts, flow, handles, sizes, clock);
    Counted { answer, counts }
}

// The periodic update of a flow, with its credits.
pub fn tick(
    state: &mut State,
    counts: [[u64; 5]; 16],
    flow: u64,
    clock: Micros,
    credits: Bytes,
) -> Counted<Result<(), FlowRefusal>>
    ensures { let a = tick state.old counts flow clock.0 credits.0 in
        (accepted_answer result.answer ticked ≡ a.answer) × (state.new ≡ a.state) × (result.counts ≡ a.counts) }
{
    let answer = tick_lent(state, &counts, flow, clock, credits);
    Counted { answer, counts }
}
