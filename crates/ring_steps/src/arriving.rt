// An arrival at a queue that is ready for it.
ghost use Rattle.std.specs.Prelude.{◌≡◌, true, ◌≤◌, ◌<◌, get_or, length, set};
ghost use Rattle.units.specs.Kinds.{whole};
ghost use Rattle.pie.specs.Constants.{largest, most_accumulated};
ghost use Rattle.pie.specs.DropDecision.{drawn};
ghost use Rattle.pie.specs.Verdicts.{place_of};
ghost use Rattle.refusals.specs.Answer.{verdict};
ghost use Rattle.ring.specs.Arrival.{arrival, arrived_state, stored, verdict_of};
ghost use Rattle.ring.specs.State.{well_formed};
ghost use Rattle.refusals.specs.Codes.{code_of};
ghost use Rattle.ring_words.specs.Codes.{words_after};
ghost use Rattle.pie_words.specs.Words.{pie_at};
ghost use Rattle.ring_words.specs.Words.{restarted_words, state_of, state_words};
ghost use Rattle.ring_words.specs.Lent.{lent};
ghost use Rattle.ring_steps.specs.Fitting.{Ready};
ghost use Rattle.ring_steps.specs.Words.{decided_words, drawn_words};

use crate::codes::refused;
use bursts::wide;
use pie::{LARGEST, LATEST, Verdict};
use pie_words::{pie_at, spares};
use places::tail_place;
use refusals::Refusal;
use ring_words::{
    ACCUMULATED, ACTIVE, BUFFER, BYTES, CLOCK, COUNT, FIRST, PIE, SLOTS, TARGET, VERDICTS,
    write_restart,
};
use units::Micros;

// Past rule 5: gives the place of the verdict, and writes the accumulated probability. A place and an arm for each verdict, since with
// verdicts a call of a burst of 32 took 71.4 instructions (one write) or 72.5 (an arm for each) in place of 69.1, at a bar of 70.
fn draw(w: &mut [u64; 23], ecn: bool, u: u32) -> usize
    requires { (length w.old ≡ 23) × (get_or w.old 5 0 ≤ whole) × (get_or w.old 8 0 < most_accumulated) }
    ensures value { result ≡ place_of (drawn (pie_at w.old 5) ecn u) }
    ensures w_after { w.new ≡ drawn_words w.old (drawn (pie_at w.old 5) ecn u) }
{
    let found = pie_at(w, PIE).draw(ecn, u);
    let v = found.verdict;
    match v {
        Verdict::Enqueued => {
            w[ACCUMULATED] = found.accumulated.0;
            0
        }
        Verdict::Marked => {
            w[ACCUMULATED] = found.accumulated.0;
            1
        }
        Verdict::DroppedBytes => {
            w[ACCUMULATED] = found.accumulated.0;
            2
        }
        Verdict::DroppedSlots => {
            w[ACCUMULATED] = found.accumulated.0;
            3
        }
        Verdict::DroppedEarly => {
            w[ACCUMULATED] = found.accumulated.0;
            4
        }
    }
}

// Rules 1 to 7: gives the place of the verdict. The accumulated probability is written where it moves. An inactive queue's probability is
// 0, and rules 3 to 7 enqueue in it.
fn decide(w: &mut [u64; 23], size: u64, ecn: bool, u: u32) -> usize
    requires w_len { (length w.old ≡ 23) × (well_formed (state_of w.old) ≡ true) }
    requires size_le_largest { size ≤ largest }
    ensures value { result ≡ place_of (verdict_of (state_of w.old) size ecn u) }
    ensures w_after { w.new ≡ decided_words w.old (verdict_of (state_of w.old) size ecn u) }
{
    let bytes = w[BYTES];
    let bytes_full = w[BUFFER] < bytes + size;
    if bytes_full {
        return 2;
    }
    let slots_full = w[COUNT] == w[SLOTS];
    if slots_full {
        return 3;
    }
    let target = Micros(w[TARGET]);
    let spared = spares(w, PIE, target);
    if spared {
        return 0;
    }
    draw(w, ecn, u)
}

// The rules on the state as it is given, their verdict's count, and an admitted packet at the tail. Gives the place of the verdict.
fn take(
    w: &mut [u64; 23],
    handles: &mut [u32],
    sizes: &mut [u32],
    clock: u64,
    handle: u32,
    size: u32,
    ecn: bool,
    u: u32,
) -> usize
    requires ready { Ready (lent w.old handles.old sizes.old) 1 }
    requires size_le_largest { size ≤ largest }
    ensures { let s = state_of w.old in
        let v = verdict_of s size ecn u in
        (result ≡ place_of v)
        × (w.new ≡ state_words w.old (arrived_state s clock size v))
        × (handles.new ≡ stored s (verdict v) handles.old handle)
        × (sizes.new ≡ stored s (verdict v) sizes.old size) }
{
    let bytes = wide(size);
    let v = decide(w, bytes, ecn, u);
    let row = VERDICTS + v;
    w[CLOCK] = clock;
    w[row] = w[row] + 1;
    let admits = v < 2;
    if admits {
        let tail = tail_place(w[FIRST], w[COUNT], w[SLOTS]) as usize;
        w[COUNT] = w[COUNT] + 1;
        w[BYTES] = w[BYTES] + bytes;
        handles[tail] = handle;
        sizes[tail] = size;
    }
    v
}

// The algorithm begins anew, and the queue is active.
fn restart(w: &mut [u64; 23])
    ensures { w.new ≡ restarted_words (set w.old 8 0) }
{
    w[ACCUMULATED] = 0;
    write_restart(w);
}

// A packet arrives. Whether the queue turns active (Q-12) is asked last, of the bytes that the packet found: no verdict depends on it.
pub fn arrive(
    w: &mut [u64; 23],
    handles: &mut [u32],
    sizes: &mut [u32],
    clock: u64,
    handle: u32,
    size: u32,
    ecn: bool,
    u: u32,
) -> u64
    requires { Ready (lent w.old handles.old sizes.old) 1 }
    ensures { let s = state_of w.old in
        let a = arrival s handles.old sizes.old clock size ecn u in
        (result ≡ code_of a.answer)
        × (w.new ≡ words_after a w.old)
        × (handles.new ≡ stored s a.answer handles.old handle)
        × (sizes.new ≡ stored s a.answer sizes.old size) }
{
    let wrong_clock = (clock < w[CLOCK]) | (LATEST < clock);
    if wrong_clock {
        return refused(Refusal::Clock);
    }
    let bytes = wide(size);
    let wrong_size = (bytes == 0) | (LARGEST < bytes);
    if wrong_size {
        return refused(Refusal::Size);
    }
    let found = w[BYTES];
    let v = take(w, handles, sizes, clock, handle, size, ecn, u);
    let active = w[ACTIVE] != 0;
    if active {
        return v as u64;
    }
    let loaded = w[BUFFER] < 3 * found;
    if loaded {
        restart(w);
    }
    v as u64
}
