// The C interface of 64 flows (include/obikuteru.h): the calls over a record that is lent in its parts, as words. An arrival, a departure
// and a tick test the record and leave the rest to the call on one that is well formed. A fresh call writes the whole record, all zero
// where it is refused; the test of a record writes nothing; a key's flow needs no record.
#![tactic(auto)]

ghost use Rattle.std.specs.Prelude.{◌≡◌};
ghost use Rattle.hash.specs.OneAtATime.{flow_of};
ghost use Rattle.fq_state.specs.Fresh.{fresh, fresh_refusal, settings_of};
ghost use Rattle.fq_state.specs.WellFormed.{well_formed};
ghost use Rattle.fq_rules.specs.Arrival.{arrival, arrived_handles, arrived_sizes};
ghost use Rattle.fq_rules.specs.Departure.{departed_sizes, departure};
ghost use Rattle.fq_rules.specs.Tick.{tick};
ghost use Rattle.fq_words.specs.Codes.{code_of, common_after, deficits_after, flows_after, fresh_code, order_after, packet_of, words_of};
ghost use Rattle.fq_words.specs.Words.{lent};
ghost use Rattle.fq_words.specs.Written.{flow_words};

use fq_state::Settings;
use fq_steps::{arrive, depart, update};
use fq_words::{encode, fits, fresh};
use hash::flow_of;
use refusals::{Refusal, code, refused};
use units::{Bytes, Micros};

#[unsafe(no_mangle)]
pub extern "C" fn obikuteru_fq_flow(key: &[u8; 13], salt: u32) -> u32
    ensures { result ≡ flow_of key.now salt }
{
    flow_of(key, salt)
}

#[unsafe(no_mangle)]
pub extern "C" fn obikuteru_fq_fresh_of(
    common: &mut [u64; 19],
    order: &mut [u64; 64],
    flows: &mut [u64; 768],
    deficits: &mut [u32; 64],
    target: u64,
    buffer: u64,
    slots: u64,
    salt: u32,
    clock: u64,
) -> u32
    ensures { let s = fresh (settings_of target buffer slots salt) clock in
        (result ≡ fresh_code (fresh_refusal (settings_of target buffer slots salt) clock))
        × (common.new ≡ words_of s)
        × (order.new ≡ s.schedule.order)
        × (flows.new ≡ flow_words s.flows)
        × (deficits.new ≡ s.schedule.deficits) }
{
    let settings = Settings {
        target: Micros(target),
        buffer: Bytes(buffer),
        slots,
        salt: salt as u64,
    };
    let made = fresh(order, deficits, flows, settings, Micros(clock));
    encode(common, made.common, made.lists);
    code(made.accepted.map(|()| 0))
}

#[unsafe(no_mangle)]
pub extern "C" fn obikuteru_fq_well_formed_of(
    common: &[u64; 19],
    order: &[u64; 64],
    flows: &[u64; 768],
    deficits: &[u32; 64],
) -> bool
    ensures { result ≡ well_formed (lent common.now order.now deficits.now flows.now) }
{
    let mut counts = [0u32; 64];
    fits(common, order, deficits, flows, &mut counts)
}

#[unsafe(no_mangle)]
pub extern "C" fn obikuteru_fq_arrival_of(
    common: &mut [u64; 19],
    order: &mut [u64; 64],
    flows: &mut [u64; 768],
    deficits: &mut [u32; 64],
    handles: &mut [u32],
    sizes: &mut [u32],
    clock: u64,
    key: &[u8; 13],
    handle: u32,
    size: u32,
    ecn: bool,
    u: u32,
) -> u32
    ensures { let s = lent common.old order.old deficits.old flows.old in
        let a = arrival s handles.old sizes.old clock key.now size ecn u in
        (result ≡ code_of a.answer)
        × (common.new ≡ common_after a common.old)
        × (order.new ≡ order_after a order.old)
        × (flows.new ≡ flows_after a flows.old)
        × (deficits.new ≡ deficits_after a deficits.old)
        × (handles.new ≡ arrived_handles s a.answer handles.old handle)
        × (sizes.new ≡ arrived_sizes s a.answer sizes.old key.now size) }
{
    let mut counts = [0u32; 64];
    let formed = fits(common, order, deficits, flows, &mut counts);
    if !formed {
        return refused(Refusal::Malformed);
    }
    arrive(
        common,
        order,
        flows,
        deficits,
        &mut counts,
        handles,
        sizes,
        clock,
        key,
        handle,
        size,
        ecn,
        u,
        false,
    )
}

#[unsafe(no_mangle)]
pub extern "C" fn obikuteru_fq_departure_of(
    common: &mut [u64; 19],
    order: &mut [u64; 64],
    flows: &mut [u64; 768],
    deficits: &mut [u32; 64],
    handles: &[u32],
    sizes: &mut [u32],
    clock: u64,
    packet: &mut [u32; 3],
) -> u32
    ensures { let s = lent common.old order.old deficits.old flows.old in
        let a = departure s handles.now sizes.old clock in
        (result ≡ code_of a.answer)
        × (common.new ≡ common_after a common.old)
        × (order.new ≡ order_after a order.old)
        × (flows.new ≡ flows_after a flows.old)
        × (deficits.new ≡ deficits_after a deficits.old)
        × (sizes.new ≡ departed_sizes s a.answer sizes.old)
        × (packet.new ≡ packet_of a.answer) }
{
    *packet = [0, 0, 0];
    let mut counts = [0u32; 64];
    let formed = fits(common, order, deficits, flows, &mut counts);
    if !formed {
        return refused(Refusal::Malformed);
    }
    depart(
        common,
        order,
        flows,
        deficits,
        &mut counts,
        handles,
        sizes,
        clock,
        packet,
    )
}

#[unsafe(no_mangle)]
pub extern "C" fn obikuteru_fq_tick_of(
    common: &mut [u64; 19],
    order: &[u64; 64],
    flows: &mut [u64; 768],
    deficits: &[u32; 64],
    clock: u64,
) -> u32
    ensures { let s = lent common.old order.now deficits.now flows.old in
        let a = tick s clock in
        (result ≡ code_of a.answer)
        × (common.new ≡ common_after a common.old)
        × (flows.new ≡ flows_after a flows.old) }
{
    let mut counts = [0u32; 64];
    let formed = fits(common, order, deficits, flows, &mut counts);
    if !formed {
        return refused(Refusal::Malformed);
    }
    update(common, order, flows, deficits, clock)
}
