// The pair's C interface (include/obikuteru.h): the calls on two queues over records that are lent as words. Each entry tests the records
// and the tables and leaves the rest to the call on records that are well formed. An entry that names a queue is lent that queue's words
// first and the other one's second; the header picks them.
#![tactic(auto)]

ghost use Rattle.std.specs.Prelude.{◌≡◌, false, []};
ghost use Rattle.pair_rules.specs.Fresh.{fresh, setup_of};
ghost use Rattle.pair_rules.specs.WellFormed.{well_formed};
ghost use Rattle.pair_rules.specs.Arrival.{arrival, arrived_handles, arrived_sizes};
ghost use Rattle.pair_rules.specs.Departure.{departed_sizes, departure};
ghost use Rattle.pair_rules.specs.Tick.{tick};
ghost use Rattle.refusals.specs.Answer.{accepted_answer, arrival_answer, departure_answer, ticked};
ghost use Rattle.refusals.specs.Codes.{code_of, packet_of};
ghost use Rattle.pair_words.specs.After.{own_after, shared_after};
ghost use Rattle.pair_words.specs.Words.{pair_of, shared_words, state_words, which_of};

use pair_rules::{Settings, Setup, Which, fresh};
use pair_steps::{check_clock, check_size, check_tables, update_probability};
use pair_words::{VERDICTS, encode, encode_shared, records_fit};
use pie::Verdict;
use pie_words::counts_at;
use refusals::{Packet, Refusal, counts_full, refused};
use units::{Bytes, Micros};

// What `obikuteru_pair_fresh` is told of a queue.
fn setup(target: u64, buffer: u64, reserve: u64, clock: u64) -> Setup
    ensures { result ≡ setup_of target buffer reserve clock }
{
    let settings = Settings {
        target: Micros(target),
        buffer: Bytes(buffer),
    };
    Setup {
        settings,
        reserve,
        clock: Micros(clock),
    }
}

#[unsafe(no_mangle)]
pub extern "C" fn obikuteru_pair_fresh(
    shared: &mut [u64; 6],
    intercom: &mut [u64; 21],
    passengers: &mut [u64; 21],
    slots: u64,
    target0: u64,
    buffer0: u64,
    reserve0: u64,
    clock0: u64,
    target1: u64,
    buffer1: u64,
    reserve1: u64,
    clock1: u64,
) -> u32
    ensures { let a = fresh slots (setup_of target0 buffer0 reserve0 clock0) (setup_of target1 buffer1 reserve1 clock1) in
        (result ≡ code_of a.answer)
        × (shared.new ≡ shared_words a.pair.shared)
        × (intercom.new ≡ state_words [] a.pair.intercom)
        × (passengers.new ≡ state_words [] a.pair.passengers) }
{
    let first = setup(target0, buffer0, reserve0, clock0);
    let second = setup(target1, buffer1, reserve1, clock1);
    let made = fresh(slots, first, second);
    encode_shared(shared, made.pair.shared);
    encode(intercom, made.pair.intercom);
    encode(passengers, made.pair.passengers);
    match made.accepted {
        Ok(()) => 0,
        Err(refusal) => refused(refusal),
    }
}

// Where the counts are full, a clock and a size are refused before them.
fn arrival(
    shared: &mut [u64; 6],
    own: &mut [u64; 21],
    other: &[u64; 21],
    second: bool,
    handles: &mut [u32],
    sizes: &mut [u32],
    clock: u64,
    packet: Packet,
    ecn: bool,
    u: u32,
) -> Result<Verdict, Refusal>
    ensures { let p = pair_of second shared.old own.old other.now in
        let a = arrival p (which_of second) handles.old sizes.old clock packet.size ecn u in
        (arrival_answer result ≡ a.answer)
        × (shared.new ≡ shared_after a shared.old)
        × (own.new ≡ own_after (which_of second) a own.old)
        × (handles.new ≡ arrived_handles p a.answer handles.old packet.handle)
        × (sizes.new ≡ arrived_sizes p (which_of second) a.answer sizes.old packet.size) }
{
    if !records_fit(shared, own, other, second) {
        return Err(Refusal::Malformed);
    }
    check_tables(shared, handles, sizes)?;
    if counts_full(counts_at(own, VERDICTS)) {
        check_clock(own, clock)?;
        check_size(packet.size)?;
        return Err(Refusal::Counts);
    }
    let which = Which::from(second);
    pair_steps::arrival(
        shared, own, other, which, handles, sizes, clock, packet, ecn, u,
    )
}

#[unsafe(no_mangle)]
pub extern "C" fn obikuteru_pair_arrival_of(
    shared: &mut [u64; 6],
    own: &mut [u64; 21],
    other: &[u64; 21],
    second: bool,
    handles: &mut [u32],
    sizes: &mut [u32],
    clock: u64,
    handle: u32,
    size: u32,
    ecn: bool,
    u: u32,
) -> u32
    ensures { let p = pair_of second shared.old own.old other.now in
        let a = arrival p (which_of second) handles.old sizes.old clock size ecn u in
        (result ≡ code_of a.answer)
        × (shared.new ≡ shared_after a shared.old)
        × (own.new ≡ own_after (which_of second) a own.old)
        × (handles.new ≡ arrived_handles p a.answer handles.old handle)
        × (sizes.new ≡ arrived_sizes p (which_of second) a.answer sizes.old size) }
{
    let packet = Packet { handle, size };
    match arrival(
        shared, own, other, second, handles, sizes, clock, packet, ecn, u,
    ) {
        Ok(verdict) => verdict.place() as u32,
        Err(refusal) => refused(refusal),
    }
}

fn departure(
    shared: &mut [u64; 6],
    own: &mut [u64; 21],
    other: &[u64; 21],
    second: bool,
    handles: &[u32],
    sizes: &mut [u32],
    clock: u64,
) -> Result<Packet, Refusal>
    ensures { let p = pair_of second shared.old own.old other.now in
        let a = departure p (which_of second) handles.now sizes.old clock in
        (departure_answer result ≡ a.answer)
        × (shared.new ≡ shared_after a shared.old)
        × (own.new ≡ own_after (which_of second) a own.old)
        × (sizes.new ≡ departed_sizes p (which_of second) a.answer sizes.old) }
{
    if !records_fit(shared, own, other, second) {
        return Err(Refusal::Malformed);
    }
    check_tables(shared, handles, sizes)?;
    let which = Which::from(second);
    pair_steps::departure(shared, own, other, which, handles, sizes, clock)
}

#[unsafe(no_mangle)]
pub extern "C" fn obikuteru_pair_departure_of(
    shared: &mut [u64; 6],
    own: &mut [u64; 21],
    other: &[u64; 21],
    second: bool,
    handles: &[u32],
    sizes: &mut [u32],
    clock: u64,
    packet: &mut [u32; 2],
) -> u32
    ensures { let p = pair_of second shared.old own.old other.now in
        let a = departure p (which_of second) handles.now sizes.old clock in
        (result ≡ code_of a.answer)
        × (shared.new ≡ shared_after a shared.old)
        × (own.new ≡ own_after (which_of second) a own.old)
        × (sizes.new ≡ departed_sizes p (which_of second) a.answer sizes.old)
        × (packet.new ≡ packet_of a.answer) }
{
    match departure(shared, own, other, second, handles, sizes, clock) {
        Ok(head) => {
            *packet = [head.handle, head.size];
            0
        }
        Err(refusal) => {
            *packet = [0, 0];
            refused(refusal)
        }
    }
}

fn tick(
    shared: &[u64; 6],
    own: &mut [u64; 21],
    other: &[u64; 21],
    second: bool,
    clock: u64,
) -> Result<(), Refusal>
    ensures { let a = tick (pair_of second shared.now own.old other.now) (which_of second) clock in
        (accepted_answer result ticked ≡ a.answer) × (own.new ≡ own_after (which_of second) a own.old) }
{
    if !records_fit(shared, own, other, second) {
        return Err(Refusal::Malformed);
    }
    update_probability(shared, own, other, Which::from(second), clock)
}

#[unsafe(no_mangle)]
pub extern "C" fn obikuteru_pair_tick_of(
    shared: &[u64; 6],
    own: &mut [u64; 21],
    other: &[u64; 21],
    second: bool,
    clock: u64,
) -> u32
    ensures { let p = pair_of second shared.now own.old other.now in
        let a = tick p (which_of second) clock in
        (result ≡ code_of a.answer) × (own.new ≡ own_after (which_of second) a own.old) }
{
    match tick(shared, own, other, second, clock) {
        Ok(()) => 0,
        Err(refusal) => refused(refusal),
    }
}

#[unsafe(no_mangle)]
pub extern "C" fn obikuteru_pair_well_formed(
    shared: &[u64; 6],
    intercom: &[u64; 21],
    passengers: &[u64; 21],
) -> bool
    ensures { result ≡ well_formed (pair_of false shared.now intercom.now passengers.now) }
{
    records_fit(shared, intercom, passengers, false)
}
