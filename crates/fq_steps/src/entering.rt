// The calls over a record that is lent in its parts, as words. The counts are the flows', before and after.
ghost use Rattle.std.specs.Prelude.{◌≡◌, true, ◌≤◌, ◌<◌, set};
ghost use Rattle.pie.specs.Constants.{most_verdicts};
ghost use Rattle.pie.specs.Verdicts.{total};
ghost use Rattle.fq_state.specs.State.{counts_of, flow_at};
ghost use Rattle.fq_state.specs.WellFormed.{well_formed};
ghost use Rattle.fq_rules.specs.Arrival.{arrival, arrived_handles, arrived_sizes};
ghost use Rattle.fq_rules.specs.Departure.{departed_sizes, departure};
ghost use Rattle.fq_rules.specs.Tick.{tick};
ghost use Rattle.fq_words.specs.Codes.{code_of, common_after, deficits_after, flows_after, order_after, packet_of};
ghost use Rattle.fq_words.specs.Words.{common_of, flows_of, lent};

use crate::calling::{arrival_of, departure_of, tick_of};
use crate::writing::{write_arrived, write_left, write_ticked};
use fq_words::{decode, decode_lists, flow_at, numbered};
use hash::flow_of;
use refusals::refused;
use units::{Bytes, Micros};

// Notes the count of one flow anew.
fn note(flows: &[u64; 768], counts: &mut [u32; 64], flow: usize)
    requires { (flow < 64) × ((flow_at (flows_of flows.now) flow).count ≤ 65537) }
    ensures { counts.new ≡ set counts.old flow (flow_at (flows_of flows.now) flow).count }
{
    let f = flow_at(flows, flow);
    counts[flow] = f.count as u32;
}

// Where `room`, the counts of the verdicts are not full.
pub fn arrive(
    common: &mut [u64; 19],
    order: &mut [u64; 64],
    flows: &mut [u64; 768],
    deficits: &mut [u32; 64],
    counts: &mut [u32; 64],
    handles: &mut [u32],
    sizes: &mut [u32],
    clock: u64,
    key: &[u8; 13],
    handle: u32,
    size: u32,
    ecn: bool,
    u: u32,
    room: bool,
) -> u32
    requires flows_value { well_formed (lent common.old order.old deficits.old flows.old) ≡ true }
    requires counts_value { counts.old ≡ counts_of (flows_of flows.old) }
    requires common_bound { (room ≡ true) → (total (common_of common.old).verdicts < most_verdicts) }
    ensures fact { let s = lent common.old order.old deficits.old flows.old in
        let a = arrival s handles.old sizes.old clock key.now size ecn u in
        (result ≡ code_of a.answer)
        × (common.new ≡ common_after a common.old)
        × (order.new ≡ order_after a order.old)
        × (flows.new ≡ flows_after a flows.old)
        × (deficits.new ≡ deficits_after a deficits.old)
        × (handles.new ≡ arrived_handles s a.answer handles.old handle)
        × (sizes.new ≡ arrived_sizes s a.answer sizes.old key.now size) }
    ensures counts_after { counts.new ≡ counts_of (flows_of flows.new) }
{
    let mut values = decode(*common);
    let mut lists = decode_lists(*common);
    let flow = flow_of(key, values.settings.salt as u32) as usize;
    let answer = arrival_of(
        &mut values,
        &mut lists,
        order,
        deficits,
        flows,
        handles,
        sizes,
        Micros(clock),
        flow,
        handle,
        Bytes(size as u64),
        ecn,
        u,
        room,
    );
    note(flows, counts, flow);
    match answer {
        Err(refusal) => refused(refusal),
        Ok(v) => {
            write_arrived(common, values, lists, v);
            numbered(v)
        }
    }
}

pub fn depart(
    common: &mut [u64; 19],
    order: &mut [u64; 64],
    flows: &mut [u64; 768],
    deficits: &mut [u32; 64],
    counts: &mut [u32; 64],
    handles: &[u32],
    sizes: &mut [u32],
    clock: u64,
    packet: &mut [u32; 3],
) -> u32
    requires flows_value { well_formed (lent common.old order.old deficits.old flows.old) ≡ true }
    requires counts_value { counts.old ≡ counts_of (flows_of flows.old) }
    ensures fact { let s = lent common.old order.old deficits.old flows.old in
        let a = departure s handles.now sizes.old clock in
        (result ≡ code_of a.answer)
        × (common.new ≡ common_after a common.old)
        × (order.new ≡ order_after a order.old)
        × (flows.new ≡ flows_after a flows.old)
        × (deficits.new ≡ deficits_after a deficits.old)
        × (sizes.new ≡ departed_sizes s a.answer sizes.old)
        × (packet.new ≡ packet_of a.answer) }
    ensures counts_after { counts.new ≡ counts_of (flows_of flows.new) }
{
    let mut values = decode(*common);
    let mut lists = decode_lists(*common);
    let served = departure_of(
        &mut values,
        &mut lists,
        order,
        deficits,
        flows,
        counts,
        handles,
        sizes,
        Micros(clock),
    );
    match served {
        Err(refusal) => {
            *packet = [0, 0, 0];
            refused(refusal)
        }
        Ok(s) => {
            note(flows, counts, s.flow as usize);
            *packet = [s.flow, s.packet.handle, s.packet.size];
            write_left(common, values, lists);
            0
        }
    }
}

pub fn update(
    common: &mut [u64; 19],
    order: &[u64; 64],
    flows: &mut [u64; 768],
    deficits: &[u32; 64],
    clock: u64,
) -> u32
    requires { well_formed (lent common.old order.now deficits.now flows.old) ≡ true }
    ensures fact { let s = lent common.old order.now deficits.now flows.old in
        let a = tick s clock in
        (result ≡ code_of a.answer)
        × (common.new ≡ common_after a common.old)
        × (flows.new ≡ flows_after a flows.old) }
    ensures flows_unchanged { counts_of (flows_of flows.new) ≡ counts_of (flows_of flows.old) }
{
    let mut values = decode(*common);
    let lists = decode_lists(*common);
    let answer = tick_of(&mut values, lists, order, deficits, flows, Micros(clock));
    match answer {
        Err(refusal) => refused(refusal),
        Ok(()) => {
            write_ticked(common, values);
            0
        }
    }
}
