// The C interface (include/obikuteru.h): the queue's calls over a state that is lent as words.
// Each entry decodes the words, makes the one call of the queue and writes what it returned. Tables that a call is not lent to write stay.
#![tactic(auto)]

ghost use Rattle.std.specs.Prelude.{◌≡◌, []};
ghost use Rattle.ring.specs.State.{well_formed};
ghost use Rattle.ring.specs.Fresh.{fresh, settings_of};
ghost use Rattle.ring_words.specs.Words.{state_of, state_words};
ghost use Rattle.ring_words.specs.Lent.{code_to, leaves, lent, reply_to};
ghost use Rattle.refusals.specs.Codes.{code_of, packet_of};
ghost use Rattle.calls.specs.Requests.{ask_arrival, ask_departure, ask_tick};

use refusals::refused;
use ring::State;
use ring_words::{decode, encode, write_arrival, write_departure};
use units::{Bytes, Micros};

#[unsafe(no_mangle)]
pub extern "C" fn obikuteru_fresh(
    words: &mut [u64; 23],
    target: u64,
    buffer: u64,
    slots: u64,
    profile: u64,
    clock: u64,
) -> u32
    ensures value { result ≡ code_of (fresh (settings_of target buffer slots profile) clock).answer }
    ensures words_after { words.new ≡ state_words [] (fresh (settings_of target buffer slots profile) clock).state }
{
    *words = [0; 23];
    let r = State::fresh(Micros(target), Bytes(buffer), slots, profile, Micros(clock));
    encode(words, r.state);
    match r.accepted {
        Ok(()) => 0,
        Err(refusal) => refused(refusal),
    }
}

#[unsafe(no_mangle)]
pub extern "C" fn obikuteru_arrival(
    words: &mut [u64; 23],
    handles: &mut [u32],
    sizes: &mut [u32],
    clock: u64,
    handle: u32,
    size: u32,
    ecn: bool,
    u: u32,
) -> u32
    ensures { let q = lent words.old handles.old sizes.old in
        let asked = ask_arrival clock handle size ecn u in
        (result ≡ code_to q asked)
        × (words.new ≡ (leaves q asked).words)
        × (handles.new ≡ (leaves q asked).handles)
        × (sizes.new ≡ (leaves q asked).sizes) }
{
    let mut s = decode(*words);
    let active = s.active;
    let answer = s.arrival(
        handles,
        sizes,
        Micros(clock),
        handle,
        Bytes(size as u64),
        ecn,
        u,
    );
    match answer {
        Ok(v) => write_arrival(words, s, v, !active & s.active),
        Err(refusal) => refused(refusal),
    }
}

#[unsafe(no_mangle)]
pub extern "C" fn obikuteru_departure(
    words: &mut [u64; 23],
    handles: &[u32],
    sizes: &[u32],
    clock: u64,
    packet: &mut [u32; 2],
) -> u32
    ensures { let q = lent words.old handles.now sizes.now in
        let asked = ask_departure clock in
        (result ≡ code_to q asked)
        × (words.new ≡ (leaves q asked).words)
        × (packet.new ≡ packet_of (reply_to q asked).answer) }
{
    let mut s = decode(*words);
    match s.departure(handles, sizes, Micros(clock)) {
        Ok(left) => {
            write_departure(words, packet, s, left.handle, left.size);
            0
        }
        Err(refusal) => {
            *packet = [0, 0];
            refused(refusal)
        }
    }
}

#[unsafe(no_mangle)]
pub extern "C" fn obikuteru_tick(words: &mut [u64; 23], clock: u64) -> u32
    ensures { let q = lent words.old [] [] in
        (result ≡ code_to q (ask_tick clock)) × (words.new ≡ (leaves q (ask_tick clock)).words) }
{
    let mut s = decode(*words);
    match s.tick(Micros(clock)) {
        Ok(()) => {
            encode(words, s);
            0
        }
        Err(refusal) => refused(refusal),
    }
}

#[unsafe(no_mangle)]
pub extern "C" fn obikuteru_well_formed(words: &[u64; 23]) -> bool
    ensures { result ≡ well_formed (state_of words.now) }
{
    decode(*words).well_formed()
}
