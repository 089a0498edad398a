// A flow's record as sixteen words, in the order of struct obikuteru_modem_state.
ghost use Rattle.std.specs.Prelude.{◌≡◌, length};
ghost use Rattle.modem_words.specs.Words.{arrival_words, departure_words, state_of, state_words};

use crate::layout::{
    ACCUMULATED, ACTIVITY, ALLOWANCE, BUFFER, BYTES, CLOCK, COUNT, FIRST, LAST, OLD, PEAK, PROB,
    RESET, SLOTS, SUSTAINED, TARGET,
};
use docsis_pie::{Activity, DocsisPie, Phase};
use modem_flow::{Settings, State};
use pie::Backlog;
use units::{Bytes, BytesPerSecond, Micros, Prob};

// The state that the words hold, and that they are sixteen.
pub fn decode(w: [u64; 16]) -> State
    ensures { (result ≡ state_of w) × (length w ≡ 16) }
{
    let settings = Settings {
        target: Micros(w[TARGET]),
        buffer: Bytes(w[BUFFER]),
        slots: w[SLOTS],
        peak: BytesPerSecond(w[PEAK]),
        sustained: BytesPerSecond(w[SUSTAINED]),
    };
    let phase = Phase {
        activity: Activity(w[ACTIVITY]),
        reset: Micros(w[RESET]),
    };
    let pie = DocsisPie {
        prob: Prob(w[PROB]),
        accumulated: Prob(w[ACCUMULATED]),
        old: Micros(w[OLD]),
        allowance: Micros(w[ALLOWANCE]),
        phase,
    };
    let backlog = Backlog {
        count: w[COUNT],
        bytes: Bytes(w[BYTES]),
    };
    State {
        settings,
        clock: Micros(w[CLOCK]),
        last: Micros(w[LAST]),
        pie,
        backlog,
        first: w[FIRST],
    }
}

// The words of a state.
pub fn encode(w: &mut [u64; 16], s: State)
    ensures { w.new ≡ state_words s }
{
    *w = [
        s.settings.target.0,
        s.settings.buffer.0,
        s.settings.slots,
        s.settings.peak.0,
        s.settings.sustained.0,
        s.clock.0,
        s.last.0,
        s.pie.prob.0,
        s.pie.accumulated.0,
        s.pie.old.0,
        s.pie.allowance.0,
        s.pie.phase.reset.0,
        s.pie.phase.activity.0,
        s.first,
        s.backlog.count,
        s.backlog.bytes.0,
    ];
}

// The words that an arrival changes: fewer than `encode` writes, since the tables were written before.
pub fn write_arrival(w: &mut [u64; 16], s: State)
    ensures { w.new ≡ arrival_words w.old s }
{
    w[CLOCK] = s.clock.0;
    w[ACCUMULATED] = s.pie.accumulated.0;
    w[ALLOWANCE] = s.pie.allowance.0;
    w[ACTIVITY] = s.pie.phase.activity.0;
    w[COUNT] = s.backlog.count;
    w[BYTES] = s.backlog.bytes.0;
}

// The words that a departure changes.
pub fn write_departure(w: &mut [u64; 16], s: State)
    ensures { w.new ≡ departure_words w.old s }
{
    w[CLOCK] = s.clock.0;
    w[FIRST] = s.first;
    w[COUNT] = s.backlog.count;
    w[BYTES] = s.backlog.bytes.0;
}
