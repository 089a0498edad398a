// An arrival at a flow that is ready for it.
ghost use Rattle.std.specs.Prelude.{◌≡◌, cond, true, ◌+◌, ◌≤◌, ◌<◌, ◌^◌, get_or, length};
ghost use Rattle.pie.specs.Constants.{largest, longest};
ghost use Rattle.docsis_pie.specs.Constants.{high, most_prob};
ghost use Rattle.docsis_pie.specs.DropDecision.{after_drop, drawn_with, scaled_of, stays_inactive, summed, no_longer_inactive};
ghost use Rattle.modem_flow.specs.Arrival.{arrival, decision_of, stored};
ghost use Rattle.modem_flow.specs.State.{formed};
ghost use Rattle.modem.specs.Counts.{counts_after, row_of};
ghost use Rattle.refusals.specs.Codes.{code_of};
ghost use Rattle.modem_words.specs.Words.{pie_of, state_of, state_words};
ghost use Rattle.modem_words.specs.Lent.{lent};
ghost use Rattle.modem_steps.specs.Fitting.{Ready};
ghost use Rattle.modem_steps.specs.Words.{pie_words};

use docsis_pie::{
    Activity, FULL_ALLOWANCE, HIGH, below_third, early, in_allowance, is_low, lightly_loaded,
    limit_sum, scaled, small, sum,
};
use modem_words::{
    ACCUMULATED, ACTIVITY, ALLOWANCE, BUFFER, BYTES, CLOCK, COUNT, FIRST, OLD, PROB, SLOTS, TARGET,
    raise,
};
use pie::{LARGEST, LATEST, Verdict};
use places::tail_place;
use refusals::{Refusal, refused};
use units::{Bytes, Micros, Prob};

// Rule 5: whether the flow stays inactive. Rule 6 where it does not.
fn stays_inactive(w: &mut [u64; 16], bytes: u64) -> bool
    requires { (length w.old ≡ 16) × (bytes ≤ 2 ^ 24) }
    ensures value { result ≡ stays_inactive (pie_of w.old) (get_or w.old 1 0) bytes }
    ensures w_after { w.new
        ≡ pie_words w.old (cond result (pie_of w.old) (no_longer_inactive (pie_of w.old))) }
{
    let inactive = w[ACTIVITY] == Activity::INACTIVE.0;
    if inactive {
        let stays = below_third(Bytes(bytes), Bytes(w[BUFFER]));
        if stays {
            return true;
        }
        w[ACTIVITY] = Activity::QUIESCENT.0;
    }
    false
}

// Rule 15.
fn drop_early(w: &mut [u64; 16])
    requires { length w.old ≡ 16 }
    ensures { w.new ≡ pie_words w.old (after_drop (pie_of w.old)) }
{
    let quiescent = w[ACTIVITY] == Activity::QUIESCENT.0;
    w[ACCUMULATED] = 0;
    if quiescent {
        w[ALLOWANCE] = FULL_ALLOWANCE;
        w[ACTIVITY] = Activity::ACTIVE.0;
    }
}

// Rules 7 to 15: gives the verdict. Of rules 9 to 11, which all enqueue, those come first that only ticks change or that most
// packets meet.
fn draw(w: &mut [u64; 16], bytes: u64, size: u64, calls: &[u32], at: usize) -> Verdict
    requires w_len { (length w.old ≡ 16) × (size ≤ largest) × (at + 5 < length calls.now) }
    requires w_bound { (get_or w.old 7 0 ≤ most_prob) × (get_or w.old 8 0 ≤ high) × (get_or w.old 9 0 ≤ longest) }
    ensures { let pie = pie_of w.old in
        let part = scaled_of pie.prob.0 size in
        let d = drawn_with (summed pie part) (get_or w.old 0 0) bytes part (get_or calls.now (at + 4) 0) in
        (result ≡ d.verdict) × (w.new ≡ pie_words w.old d.pie) }
{
    let p = Prob(w[PROB]);
    let part = scaled(p, Bytes(size));
    let total = sum(Prob(w[ACCUMULATED]), part);
    let light = lightly_loaded(p, Micros(w[OLD]), Micros(w[TARGET]));
    if light {
        w[ACCUMULATED] = limit_sum(total).0;
        return Verdict::Enqueued;
    }
    let low = is_low(total);
    if low {
        w[ACCUMULATED] = total.0;
        return Verdict::Enqueued;
    }
    let little = small(Bytes(bytes));
    if little {
        w[ACCUMULATED] = limit_sum(total).0;
        return Verdict::Enqueued;
    }
    let drops = (HIGH <= total.0) | early(part, calls[at + 4]);
    if drops {
        drop_early(w);
        return Verdict::DroppedEarly;
    }
    w[ACCUMULATED] = total.0;
    Verdict::Enqueued
}

// Rules 1 to 15: gives the verdict. Where p is 0, rule 11 enqueues whatever the others say.
fn decide(w: &mut [u64; 16], size: u64, calls: &[u32], at: usize) -> Verdict
    requires { (length w.old ≡ 16) × (formed (state_of w.old) ≡ true) × (size ≤ largest) × (at + 5 < length calls.now) }
    ensures { let d = decision_of (state_of w.old) size (get_or calls.now (at + 4) 0) in
        (result ≡ d.verdict) × (w.new ≡ pie_words w.old d.pie) }
{
    let bytes = w[BYTES];
    let bytes_full = w[BUFFER] < bytes + size;
    if bytes_full {
        w[ACCUMULATED] = 0;
        return Verdict::DroppedBytes;
    }
    let slots_full = w[COUNT] == w[SLOTS];
    if slots_full {
        w[ACCUMULATED] = 0;
        return Verdict::DroppedSlots;
    }
    let burst = in_allowance(Micros(w[ALLOWANCE]));
    if burst {
        return Verdict::Enqueued;
    }
    let none = w[PROB] == 0;
    if none {
        w[ACCUMULATED] = 0;
        stays_inactive(w, bytes);
        return Verdict::Enqueued;
    }
    let stays = stays_inactive(w, bytes);
    if stays {
        return Verdict::Enqueued;
    }
    draw(w, bytes, size, calls, at)
}

// A packet arrives. This and the other calls answer by the number that a burst hands to C.
// Handle, size and u are read from the list where each is used: given as numbers, a call of a burst of 32 took 75.0 and 71.4 instructions
// (modem, modem-full) in place of 73.7 and 69.8.
pub fn arrive(
    w: &mut [u64; 16],
    counts: &mut [[u64; 5]; 16],
    flow: u32,
    handles: &mut [u32],
    sizes: &mut [u32],
    calls: &[u32],
    at: usize,
    clock: u64,
) -> u64
    requires ready { Ready flow (lent w.old counts.old handles.old sizes.old) 1 }
    requires at_in_bounds { at + 5 < length calls.now }
    ensures { let size = get_or calls.now (at + 3) 0 in
        let s = state_of w.old in
        let row = row_of counts.old flow in
        let a = arrival s row handles.old sizes.old clock size (get_or calls.now (at + 4) 0) in
        (result ≡ code_of a.answer)
        × (w.new ≡ state_words a.state)
        × (counts.new ≡ counts_after counts.old flow a.answer)
        × (handles.new ≡ stored s a.answer handles.old (get_or calls.now (at + 2) 0))
        × (sizes.new ≡ stored s a.answer sizes.old size) }
{
    let wrong_clock = (clock < w[CLOCK]) | (LATEST < clock);
    if wrong_clock {
        return refused(Refusal::Clock) as u64;
    }
    let size = calls[at + 3];
    let bytes = u64::from(size);
    let wrong_size = (bytes == 0) | (LARGEST < bytes);
    if wrong_size {
        return refused(Refusal::Size) as u64;
    }
    let v = decide(w, bytes, calls, at);
    w[CLOCK] = clock;
    raise(counts, flow, v);
    let place = v.place();
    let admits = v.admits();
    if admits {
        let tail = tail_place(w[FIRST], w[COUNT], w[SLOTS]) as usize;
        w[COUNT] = w[COUNT] + 1;
        w[BYTES] = w[BYTES] + bytes;
        handles[tail] = calls[at + 2];
        sizes[tail] = size;
    }
    place as u64
}
