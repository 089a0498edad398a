// The records that words hold, and the words of fresh ones.
ghost use Rattle.std.specs.Prelude.{◌≡◌, [], ◌∷◌, length};
ghost use Rattle.pair_rules.specs.Facing.{facing};
ghost use Rattle.pair_words.specs.Words.{shared_of, shared_words, state_of, state_words, store_of};

use crate::layout::{
    BUFFER, CLOCK, FREED, HEAD, INTERCOM, LAST, PASSENGERS, PIE, SLOTS, SPARE, TAIL, TARGET, USED,
    VERDICTS,
};
use pair_rules::{Reserves, Settings, Shared, State, Which};
use pie_words::{backlog_at, counts_at, pie_at};
use store::{Ends, Store};
use units::{Bytes, Micros};

fn store_at(w: &[u64; 6]) -> Store
    ensures { result ≡ store_of w.now }
{
    Store {
        used: w[USED],
        freed: w[FREED],
        spare: w[SPARE],
    }
}

// The shared record that the words hold, and that they are six.
#[tactic(auto, unfolding(crate::specs::Words::shared_of))]
pub(crate) fn decode_shared(w: [u64; 6]) -> Shared
    ensures { (result ≡ shared_of w) × (length w ≡ 6) }
{
    let reserves = Reserves {
        intercom: w[INTERCOM],
        passengers: w[PASSENGERS],
    };
    Shared {
        slots: w[SLOTS],
        reserves,
        store: store_at(&w),
    }
}

// The shared record as the called queue sees it. The reserves are read by a place: by `decode_shared` and `facing`, which choose between
// words read before, a call of a burst takes 101.3 instructions on the stream pair in bursts of 32, so 98.6 (plain C 98.8).
#[tactic(auto, unfolding(crate::specs::Words::shared_of))]
pub fn shared_facing(w: &[u64; 6], which: Which) -> Shared
    ensures { result ≡ facing which (shared_of w.now) }
{
    let second = which as usize;
    let reserves = Reserves {
        intercom: w[INTERCOM + second],
        passengers: w[PASSENGERS - second],
    };
    Shared {
        slots: w[SLOTS],
        reserves,
        store: store_at(w),
    }
}

// The state that the words hold, and that they are twenty-one.
#[tactic(auto, unfolding(crate::specs::Words::state_of))]
pub(crate) fn decode(w: [u64; 21]) -> State
    ensures { (result ≡ state_of w) × (length w ≡ 21) }
{
    let settings = Settings {
        target: Micros(w[TARGET]),
        buffer: Bytes(w[BUFFER]),
    };
    let ends = Ends {
        head: w[HEAD],
        tail: w[TAIL],
    };
    State {
        settings,
        clock: Micros(w[CLOCK]),
        last: Micros(w[LAST]),
        pie: pie_at(&w, PIE),
        backlog: backlog_at(&w, PIE),
        ends,
        verdicts: counts_at(&w, VERDICTS),
    }
}

// The words of a shared record.
#[tactic(auto, unfolding(crate::specs::Words::shared_words))]
pub fn encode_shared(w: &mut [u64; 6], s: Shared)
    ensures { w.new ≡ shared_words s }
{
    *w = [
        s.slots,
        s.reserves.intercom,
        s.reserves.passengers,
        s.store.used,
        s.store.freed,
        s.store.spare,
    ];
}

// The words of a state, whatever they were: written where they are lent, while `From` would give an array to copy.
#[tactic(auto, unfolding(crate::specs::Words::state_words))]
pub fn encode(w: &mut [u64; 21], s: State)
    ensures { w.new ≡ state_words [] s }
{
    let [
        enqueued,
        marked,
        dropped_bytes,
        dropped_slots,
        dropped_early,
    ] = s.verdicts;
    *w = [
        s.settings.target.0,
        s.settings.buffer.0,
        s.clock.0,
        s.last.0,
        s.pie.prob.0,
        s.pie.old.0,
        s.pie.allowance.0,
        s.pie.accumulated.0,
        s.pie.rate.average.0,
        s.pie.rate.measuring as u64,
        s.pie.rate.start.0,
        s.pie.rate.counted.0,
        s.backlog.count,
        s.backlog.bytes.0,
        s.ends.head,
        s.ends.tail,
        enqueued,
        marked,
        dropped_bytes,
        dropped_slots,
        dropped_early,
    ];
}
