// The calls over words as they are lent, tested or not: decoded, called and written back. Each is what its C entry does.
ghost use Rattle.std.specs.Prelude.{◌≡◌};
ghost use Rattle.modem_flow.specs.Arrival.{stored};
ghost use Rattle.modem.specs.Calls.{arrival, departure, tick};
ghost use Rattle.refusals.specs.Codes.{code_of, packet_of};
ghost use Rattle.modem_words.specs.Words.{state_of, state_words};

use modem::{arrival_lent, departure_lent, tick_lent};
use modem_words::{decode, encode, write_arrival, write_departure};
use units::{Bytes, Micros};

pub fn lent_arrival(
    words: &mut [u64; 16],
    counts: &mut [[u64; 5]; 16],
    flow: u32,
    handles: &mut [u32],
    sizes: &mut [u32],
    clock: u64,
    handle: u32,
    size: u32,
    u: u32,
) -> u32
    ensures { let s = state_of words.old in
        let a = arrival s counts.old flow handles.old sizes.old clock size u in
        (result ≡ code_of a.answer)
        × (words.new ≡ state_words a.state)
        × (counts.new ≡ a.counts)
        × (handles.new ≡ stored s a.answer handles.old handle)
        × (sizes.new ≡ stored s a.answer sizes.old size) }
{
    let mut s = decode(*words);
    let answer = arrival_lent(
        &mut s,
        counts,
        flow as u64,
        handles,
        sizes,
        Micros(clock),
        handle,
        Bytes(size as u64),
        u,
    );
    match answer {
        Ok(v) => {
            write_arrival(words, s);
            v.place() as u32
        }
        Err(refusal) => refusal.code(),
    }
}

pub fn lent_departure(
    words: &mut [u64; 16],
    counts: &[[u64; 5]; 16],
    flow: u32,
    handles: &[u32],
    sizes: &[u32],
    clock: u64,
    packet: &mut [u32; 2],
) -> u32
    ensures { let s = state_of words.old in
        let a = departure s counts.now flow handles.now sizes.now clock in
        (result ≡ code_of a.answer)
        × (words.new ≡ state_words a.state)
        × (counts.now ≡ a.counts)
        × (packet.new ≡ packet_of a.answer) }
{
    let mut s = decode(*words);
    let answer = departure_lent(&mut s, counts, flow as u64, handles, sizes, Micros(clock));
    match answer {
        Ok(left) => {
            *packet = [left.handle, left.size];
            write_departure(words, s);
            0
        }
        Err(refusal) => {
            *packet = [0, 0];
            refusal.code()
        }
    }
}

pub fn lent_tick(
    words: &mut [u64; 16],
    counts: &[[u64; 5]; 16],
    flow: u32,
    clock: u64,
    credits: u32,
) -> u32
    ensures { let a = tick (state_of words.old) counts.now flow clock credits in
        (result ≡ code_of a.answer)
        × (words.new ≡ state_words a.state)
        × (counts.now ≡ a.counts) }
{
    let mut s = decode(*words);
    let answer = tick_lent(
        &mut s,
        counts,
        flow as u64,
        Micros(clock),
        Bytes(credits as u64),
    );
    match answer {
        Ok(()) => {
            encode(words, s);
            0
        }
        Err(refusal) => refusal.code(),
    }
}
