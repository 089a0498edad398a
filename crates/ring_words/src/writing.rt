// A state written over words: whole, or where a call changes it.
ghost use Rattle.std.specs.Prelude.{◌≡◌, cond, [], ◌∷◌, ◌+◌, ◌<◌, get_or, length};
ghost use Rattle.pie.specs.Constants.{most_verdicts};
ghost use Rattle.pie.specs.Verdicts.{place_of};
ghost use Rattle.ring.specs.Departure.{departed_state};
ghost use Rattle.ring_words.specs.Words.{arrival_words, restarted_words, state_of, state_words};

use crate::layout::{
    ACCUMULATED, ACTIVE, ALLOWANCE, AVERAGE, BYTES, CLOCK, COUNT, COUNTED, FIRST, MEASURING, OLD,
    PROB, START, VERDICTS,
};
use pie::{FULL_ALLOWANCE, Verdict};
use pie_words::flag;
use ring::State;

// The words of a state. No `From`: neither `State` nor an array is this crate's own type.
#[tactic(auto, unfolding(crate::specs::Words::state_words))]
pub fn encode(w: &mut [u64; 23], s: State)
    ensures { w.new ≡ state_words w.old s }
{
    let [enqueued, marked, bytes, slots, early] = s.verdicts;
    let runs = flag(w[MEASURING], s.pie.rate.measuring);
    let active = flag(w[ACTIVE], s.active);
    *w = [
        s.settings.target.0,
        s.settings.buffer.0,
        s.settings.slots,
        s.clock.0,
        s.last.0,
        s.pie.prob.0,
        s.pie.old.0,
        s.pie.allowance.0,
        s.pie.accumulated.0,
        s.pie.rate.average.0,
        runs,
        s.pie.rate.start.0,
        s.pie.rate.counted.0,
        s.backlog.count,
        s.backlog.bytes.0,
        s.first,
        enqueued,
        marked,
        bytes,
        slots,
        early,
        s.settings.profile,
        active,
    ];
}

// The words that turning active changes, but for the accumulated probability, which `write_arrival` writes.
pub fn write_restart(w: &mut [u64; 23])
    ensures { w.new ≡ restarted_words w.old }
{
    w[PROB] = 0;
    w[OLD] = 0;
    w[ALLOWANCE] = FULL_ALLOWANCE;
    w[AVERAGE] = 0;
    w[MEASURING] = 0;
    w[START] = 0;
    w[COUNTED] = 0;
    w[ACTIVE] = 1;
}

// The words that an arrival with this verdict changes: fewer than `encode` writes, since the tables were written before. `turned`: it
// made the queue active.
pub fn write_arrival(w: &mut [u64; 23], s: State, v: Verdict, turned: bool) -> u32
    requires { get_or w.old (16 + place_of v) 0 < most_verdicts }
    ensures value { result ≡ place_of v }
    ensures w_after { w.new ≡ arrival_words (cond turned (restarted_words w.old) w.old) s v }
{
    if turned {
        write_restart(w);
    }
    let place = v.place();
    let at = VERDICTS + place;
    w[CLOCK] = s.clock.0;
    w[ACCUMULATED] = s.pie.accumulated.0;
    w[COUNT] = s.backlog.count;
    w[BYTES] = s.backlog.bytes.0;
    w[at] = w[at] + 1;
    place as u32
}

// The words that a departure changes, and its packet. A measurement that has counted bytes goes on, and its other words stay.
pub fn write_departure(
    w: &mut [u64; 23],
    packet: &mut [u32; 2],
    state: State,
    handle: u32,
    size: u32,
)
    requires { (length w.old ≡ 23) × (state ≡ departed_state (state_of w.old) state.clock.0 size) }
    ensures w_after { w.new ≡ state_words w.old state }
    ensures packet_after { packet.new ≡ handle ∷ size ∷ [] }
{
    let rate = state.pie.rate;
    w[COUNTED] = rate.counted.0;
    if rate.counted.0 == 0 {
        w[AVERAGE] = rate.average.0;
        w[MEASURING] = flag(w[MEASURING], rate.measuring);
        w[START] = rate.start.0;
    }
    w[CLOCK] = state.clock.0;
    w[COUNT] = state.backlog.count;
    w[BYTES] = state.backlog.bytes.0;
    w[FIRST] = state.first;
    *packet = [handle, size];
}
