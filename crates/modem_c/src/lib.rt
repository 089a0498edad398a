// The modem's C interface (include/obikuteru.h): a flow's calls over a state that is lent as words and a lent table of counts.
#![tactic(auto)]

ghost use Rattle.std.specs.Prelude.{◌≡◌, ◌&&◌, not};
ghost use Rattle.modem_flow.specs.Arrival.{stored};
ghost use Rattle.modem_flow.specs.Fresh.{settings_of};
ghost use Rattle.modem_flow.specs.State.{well_formed};
ghost use Rattle.modem.specs.Calls.{arrival, departure, flow_refused, fresh, tick};
ghost use Rattle.modem.specs.Counts.{row_of};
ghost use Rattle.refusals.specs.Codes.{code_of, packet_of};
ghost use Rattle.modem_words.specs.Words.{state_of, state_words};

use modem::fresh_lent;
use modem_flow::Settings;
use modem_steps::{lent_arrival, lent_departure, lent_tick};
use modem_words::{encode, record_fits};
use units::{Bytes, BytesPerSecond, Micros};

#[unsafe(no_mangle)]
pub extern "C" fn obikuteru_modem_fresh(
    words: &mut [u64; 16],
    counts: &mut [[u64; 5]; 16],
    flow: u32,
    target: u64,
    buffer: u64,
    slots: u64,
    peak: u64,
    sustained: u64,
    clock: u64,
) -> u32
    ensures { let a = fresh counts.old flow (settings_of target buffer slots peak sustained) clock in
        (result ≡ code_of a.answer) × (words.new ≡ state_words a.state) × (counts.new ≡ a.counts) }
{
    let settings = Settings {
        target: Micros(target),
        buffer: Bytes(buffer),
        slots,
        peak: BytesPerSecond(peak),
        sustained: BytesPerSecond(sustained),
    };
    let made = fresh_lent(counts, flow as u64, settings, Micros(clock));
    encode(words, made.state);
    match made.accepted {
        Ok(()) => 0,
        Err(refusal) => refusal.code(),
    }
}

#[unsafe(no_mangle)]
pub extern "C" fn obikuteru_modem_arrival(
    words: &mut [u64; 16],
    counts: &mut [[u64; 5]; 16],
    flow: u32,
    handles: &mut [u32],
    sizes: &mut [u32],
    clock: u64,
    handle: u32,
    size: u32,
    u: u32,
) -> u32
    ensures { let s = state_of words.old in
        let a = arrival s counts.old flow handles.old sizes.old clock size u in
        (result ≡ code_of a.answer)
        × (words.new ≡ state_words a.state)
        × (counts.new ≡ a.counts)
        × (handles.new ≡ stored s a.answer handles.old handle)
        × (sizes.new ≡ stored s a.answer sizes.old size) }
{
    lent_arrival(words, counts, flow, handles, sizes, clock, handle, size, u)
}

#[unsafe(no_mangle)]
pub extern "C" fn obikuteru_modem_departure(
    words: &mut [u64; 16],
    counts: &[[u64; 5]; 16],
    flow: u32,
    handles: &[u32],
    sizes: &[u32],
    clock: u64,
    packet: &mut [u32; 2],
) -> u32
    ensures { let s = state_of words.old in
        let a = departure s counts.now flow handles.now sizes.now clock in
        (result ≡ code_of a.answer)
        × (words.new ≡ state_words a.state)
        × (counts.now ≡ a.counts)
        × (packet.new ≡ packet_of a.answer) }
{
    lent_departure(words, counts, flow, handles, sizes, clock, packet)
}

#[unsafe(no_mangle)]
pub extern "C" fn obikuteru_modem_tick(
    words: &mut [u64; 16],
    counts: &[[u64; 5]; 16],
    flow: u32,
    clock: u64,
    credits: u32,
) -> u32
    ensures { let a = tick (state_of words.old) counts.now flow clock credits in
        (result ≡ code_of a.answer)
        × (words.new ≡ state_words a.state)
        × (counts.now ≡ a.counts) }
{
    lent_tick(words, counts, flow, clock, credits)
}

#[unsafe(no_mangle)]
pub extern "C" fn obikuteru_modem_well_formed(
    words: &[u64; 16],
    counts: &[[u64; 5]; 16],
    flow: u32,
) -> bool
    ensures { result ≡ (not (flow_refused flow) && well_formed (state_of words.now) (row_of counts.now flow)) }
{
    record_fits(words, counts, flow)
}
