// One call of a burst. What is asked stays a number, and a refusal its code: with both read into enums and `Result` a call takes 106.4
// instructions on the stream pair in bursts of 32, so 98.6 (plain C 98.8), and in bursts of 256 94.5 and 86.8 (plain C 92.6).
ghost use Rattle.std.specs.Prelude.{◌≡◌, false, true, [], ◌+◌, ◌-◌, ◌<◌, eqb, get_or, length};
ghost use Rattle.pair_rules.specs.WellFormed.{well_formed};
ghost use Rattle.pair_rules.specs.Departure.{departed_sizes, departure};
ghost use Rattle.pair_words.specs.After.{own_after, shared_after};
ghost use Rattle.pair_words.specs.Words.{pair_of, shared_of, which_of};
ghost use Rattle.pair_burst.specs.Calls.{asked, call_at, request_at};
ghost use Rattle.bursts.specs.Answers.{answer_word};
ghost use Rattle.pair_burst.specs.Burst.{after, answer_to, lent};
ghost use Rattle.pair_burst.specs.Fitting.{Fitting, Ready, Stays, lent_both};

use bursts::{clock_of, wide, word};
use pair_steps::{arrive, depart, tick};
use pair_words::{CLOCK, SLOTS, VERDICTS, records_fit};
use pie::{LARGEST, LATEST};
use pie_words::counts_at;
use refusals::{Refusal, counts_full, refused};

// The code of the refusal of records, tables or counts for a call on the queue whose words are `own`, or 0.
fn refusal_of(
    shared: &[u64; 6],
    own: &[u64; 21],
    other: &[u64; 21],
    second: bool,
    handles: &[u32],
    sizes: &[u32],
    calls: &[u32],
    at: usize,
    kind: u32,
) -> u32
    requires { at + 5 < length calls.now }
    ensures fitting { (eqb result 0 ≡ true) → Fitting second kind
        shared.now own.now other.now handles.now sizes.now }
    ensures stays { (eqb result 0 ≡ false) → Stays second kind
        shared.now own.now other.now handles.now sizes.now
        calls.now at result }
{
    let fit = records_fit(shared, own, other, second);
    if !fit {
        return refused(Refusal::Malformed);
    }
    let ticks = 2 < kind;
    if ticks {
        return 0;
    }
    let slots = shared[SLOTS];
    let tables_fit = (handles.len() as u64 == slots) & (sizes.len() as u64 == slots);
    if !tables_fit {
        return refused(Refusal::Tables);
    }
    let arrives = kind < 2;
    if !arrives {
        return 0;
    }
    let full = counts_full(counts_at(own, VERDICTS));
    if !full {
        return 0;
    }
    let clock = clock_of(calls[at], calls[at + 1]);
    let wrong_clock = (clock < own[CLOCK]) | (LATEST < clock);
    if wrong_clock {
        return refused(Refusal::Clock);
    }
    let bytes = wide(calls[at + 3]);
    let wrong_size = (bytes == 0) | (LARGEST < bytes);
    if wrong_size {
        return refused(Refusal::Size);
    }
    refused(Refusal::Counts)
}

// The same for a call on the queue 0, the intercom, or 1, the passengers; 0 where all were tested before.
fn refusal(
    shared: &[u64; 6],
    both: &[[u64; 21]; 2],
    queue: usize,
    handles: &[u32],
    sizes: &[u32],
    calls: &[u32],
    at: usize,
    kind: u32,
    tested: bool,
) -> u32
    requires queue_bound { (queue < 2) × (length both.now ≡ 2) × (at + 5 < length calls.now) }
    requires fitting { (tested ≡ true) → Fitting (eqb queue 1) kind
        shared.now (get_or both.now queue []) (get_or both.now (1 - queue) []) handles.now sizes.now }
    ensures fitting_2 { (eqb result 0 ≡ true) → Fitting (eqb queue 1) kind shared.now
        (get_or both.now queue []) (get_or both.now (1 - queue) []) handles.now sizes.now }
    ensures stays { (eqb result 0 ≡ false) → Stays (eqb queue 1) kind shared.now
        (get_or both.now queue []) (get_or both.now (1 - queue) []) handles.now sizes.now
        calls.now at result }
{
    if tested {
        return 0;
    }
    let rest = 1 - queue;
    let own = both[queue];
    let other = both[rest];
    let second = queue == 1;
    refusal_of(
        shared, &own, &other, second, handles, sizes, calls, at, kind,
    )
}

// A departure from records and tables that fit: the word of its answer.
fn departing(
    shared: &mut [u64; 6],
    own: &mut [u64; 21],
    other: &[u64; 21],
    second: bool,
    handles: &[u32],
    sizes: &mut [u32],
    clock: u64,
) -> u64
    requires shared_len { (length shared.old ≡ 6) × (length own.old ≡ 21) }
    requires other_value { well_formed (pair_of second shared.old own.old other.now) ≡ true }
    requires handles_len { (length handles.now ≡ (shared_of shared.old).slots) × (length sizes.old ≡ (shared_of shared.old).slots) }
    ensures { let p = pair_of second shared.old own.old other.now in
        let a = departure p (which_of second) handles.now sizes.old clock in
        (result ≡ answer_word a.answer)
        × (shared.new ≡ shared_after a shared.old)
        × (own.new ≡ own_after (which_of second) a own.old)
        × (sizes.new ≡ departed_sizes p (which_of second) a.answer sizes.old) }
{
    let mut packet: [u32; 2] = [0, 0];
    let code = depart(
        shared,
        own,
        other,
        second,
        handles,
        sizes,
        clock,
        &mut packet,
    );
    let refused = code != 0;
    if refused {
        return wide(code);
    }
    word(0, packet[1], packet[0])
}

// The call at `at` on the queue (0, the intercom; 1, the passengers) whose words are `own`; `kind` tells what it asks.
fn of_queue(
    shared: &mut [u64; 6],
    own: &mut [u64; 21],
    other: &[u64; 21],
    queue: usize,
    handles: &mut [u32],
    sizes: &mut [u32],
    calls: &[u32],
    at: usize,
    kind: u32,
) -> u64
    requires queue_bound { (queue < 2) × (at + 5 < length calls.now) }
    requires fitting { Fitting (eqb queue 1) kind shared.old own.old other.now handles.old sizes.old }
    ensures value { result ≡ answer_word (answer_to (lent (which_of (eqb queue 1))
        shared.old own.old other.now handles.old sizes.old)
        (asked (which_of (eqb queue 1)) (request_at kind calls.now at))) }
    ensures sizes_after { lent (which_of (eqb queue 1))
        shared.new own.new other.now handles.new sizes.new
        ≡ after (lent (which_of (eqb queue 1))
        shared.old own.old other.now handles.old sizes.old)
        (asked (which_of (eqb queue 1)) (request_at kind calls.now at)) }
{
    let clock = clock_of(calls[at], calls[at + 1]);
    let second = queue == 1;
    let departs = kind == 2;
    if departs {
        return departing(shared, own, other, second, handles, sizes, clock);
    }
    let arrives = kind < 2;
    if arrives {
        let code = arrive(
            shared,
            own,
            other,
            queue,
            handles,
            sizes,
            clock,
            calls[at + 2],
            calls[at + 3],
            kind == 1,
            calls[at + 4],
        );
        return wide(code);
    }
    wide(tick(shared, own, other, second, clock))
}

// The call at `at`. Where `tested`, the records are ready for it.
pub(crate) fn answer(
    shared: &mut [u64; 6],
    both: &mut [[u64; 21]; 2],
    handles: &mut [u32],
    sizes: &mut [u32],
    calls: &[u32],
    at: usize,
    tested: bool,
) -> u64
    requires both_len { (length both.old ≡ 2) × (at + 5 < length calls.now) }
    requires ready { (tested ≡ true) → Ready (lent_both shared.old both.old handles.old sizes.old) 1 }
    ensures both_len_2 { length both.new ≡ 2 }
    ensures value { result ≡ answer_word (answer_to
        (lent_both shared.old both.old handles.old sizes.old)
        (call_at calls.now at)) }
    ensures sizes_after { lent_both shared.new both.new handles.new sizes.new
        ≡ after (lent_both shared.old both.old handles.old sizes.old)
        (call_at calls.now at) }
{
    let asks = calls[at + 5];
    let unknown = 7 < asks;
    if unknown {
        return 120;
    }
    let queue = (asks / 4) as usize;
    let kind = asks % 4;
    let code = refusal(shared, both, queue, handles, sizes, calls, at, kind, tested);
    let refused = code != 0;
    if refused {
        return wide(code);
    }
    let rest = 1 - queue;
    let other = both[rest];
    of_queue(
        shared,
        &mut both[queue],
        &other,
        queue,
        handles,
        sizes,
        calls,
        at,
        kind,
    )
}
