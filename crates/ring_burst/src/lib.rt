// One entry for a list of calls: the state record is tested once, and each call is answered as the single entries would.
#![tactic(auto)]

mod call;

ghost use Rattle.std.specs.Prelude.{◌≡◌, cond, true, ℕ, ◌+◌, ◌*◌, ◌≤◌, ◌<◌, length};
ghost use Rattle.pie.specs.Constants.{most_verdicts};
ghost use Rattle.pie.specs.Verdicts.{total};
ghost use Rattle.bursts.specs.Burst.{burst, done, fits, outcome};
ghost use Rattle.ring.specs.State.{well_formed};
ghost use Rattle.ring_words.specs.Words.{state_of};
ghost use Rattle.ring_burst.specs.Calls.{call_at};
ghost use Rattle.bursts.specs.Answers.{answer_word};
ghost use Rattle.ring_words.specs.Lent.{lent};
ghost use Rattle.ring_steps.specs.Fitting.{Ready};
ghost use Rattle.ring_burst.specs.Burst.{after, answer_to, ring_bursts};

use crate::call::{Read, read_at};
use bursts::{Queue, REFUSED_CALL, answer_each, has_room, word};
use pie_words::counts_at;
use ring_c::{obikuteru_arrival, obikuteru_departure, obikuteru_tick, obikuteru_well_formed};
use ring_steps::{arrive, depart, tick};
use ring_words::{SLOTS, VERDICTS};

// The call at `at`, of a queue that is ready for it.
fn known(w: &mut [u64; 23], handles: &mut [u32], sizes: &mut [u32], calls: &[u32], at: usize) -> u64
    requires ready { Ready (lent w.old handles.old sizes.old) 1 }
    requires at_in_bounds { at + 5 < length calls.now }
    ensures value { result
        ≡ answer_word (answer_to (lent w.old handles.old sizes.old) (call_at calls.now at)) }
    ensures sizes_after { lent w.new handles.new sizes.new
        ≡ after (lent w.old handles.old sizes.old) (call_at calls.now at) }
{
    match read_at(calls, at) {
        Some(Read::Departure { clock }) => depart(w, handles, sizes, clock),
        Some(
            Read::Arrival {
                clock,
                handle,
                size,
                ecn,
                u,
            },
        ) => arrive(w, handles, sizes, clock, handle, size, ecn, u),
        Some(Read::Tick { clock }) => tick(w, clock),
        None => u64::from(REFUSED_CALL),
    }
}

// The call at `at`, by the single entries.
fn single(
    w: &mut [u64; 23],
    handles: &mut [u32],
    sizes: &mut [u32],
    calls: &[u32],
    at: usize,
) -> u64
    requires { at + 5 < length calls.now }
    ensures value { result
        ≡ answer_word (answer_to (lent w.old handles.old sizes.old) (call_at calls.now at)) }
    ensures sizes_after { lent w.new handles.new sizes.new
        ≡ after (lent w.old handles.old sizes.old) (call_at calls.now at) }
{
    match read_at(calls, at) {
        Some(Read::Departure { clock }) => {
            let mut packet: [u32; 2] = [0, 0];
            let code = obikuteru_departure(w, handles, sizes, clock, &mut packet);
            word(code, packet[1], packet[0])
        }
        Some(
            Read::Arrival {
                clock,
                handle,
                size,
                ecn,
                u,
            },
        ) => u64::from(obikuteru_arrival(w, handles, sizes, clock, handle, size, ecn, u)),
        Some(Read::Tick { clock }) => u64::from(obikuteru_tick(w, clock)),
        None => u64::from(REFUSED_CALL),
    }
}

// Whether a state is well formed, the tables fit it and its counts have room for `n` arrivals. It decides only the cost.
fn ready(w: &[u64; 23], handles: u64, sizes: u64, n: u64) -> bool
    ensures { (result ≡ true) → ((length w.now ≡ 23)
        × (well_formed (state_of w.now) ≡ true)
        × (handles ≡ (state_of w.now).settings.slots)
        × (sizes ≡ (state_of w.now).settings.slots)
        × (total (state_of w.now).verdicts + n ≤ most_verdicts)) }
{
    if !obikuteru_well_formed(w) {
        return false;
    }
    if handles != w[SLOTS] || sizes != w[SLOTS] {
        return false;
    }
    has_room(counts_at(w, VERDICTS), n)
}

// A queue as it is lent. Where `TESTED`, it is ready for the calls.
#[derive(Drop)]
struct Lent<'a, const TESTED: bool> {
    words: &'a mut [u64; 23],
    handles: &'a mut [u32],
    sizes: &'a mut [u32],
}

impl Queue for Lent<'_, true> {
    ghost kind = { ring_bursts };

    ghost state = { λ q. lent q.words.now q.handles.now q.sizes.now };

    ghost ready = { λ q n. Ready (lent q.words.now q.handles.now q.sizes.now) n };

    ghost Names = { ℕ × ℕ × ℕ };

    ghost names = { λ q. (q.words.ghost_name, q.handles.ghost_name, q.sizes.ghost_name) };

    fn answer(&mut self, calls: &[u32], i: usize) -> u64 {
        known(self.words, self.handles, self.sizes, calls, 6 * i)
    }
}

impl Queue for Lent<'_, false> {
    ghost kind = { ring_bursts };

    ghost state = { λ q. lent q.words.now q.handles.now q.sizes.now };

    ghost ready = { λ q n. Unit {0} };

    ghost Names = { ℕ × ℕ × ℕ };

    ghost names = { λ q. (q.words.ghost_name, q.handles.ghost_name, q.sizes.ghost_name) };

    fn answer(&mut self, calls: &[u32], i: usize) -> u64 {
        single(self.words, self.handles, self.sizes, calls, 6 * i)
    }
}

// `calls` has six numbers for each of `answers`; where it has not, nothing is done.
#[unsafe(no_mangle)]
pub extern "C" fn obikuteru_calls(
    words: &mut [u64; 23],
    handles: &mut [u32],
    sizes: &mut [u32],
    calls: &[u32],
    answers: &mut [u64],
) -> u32
    ensures value { result ≡ cond (fits ring_bursts calls.now answers.old) 0 120 }
    ensures answers_after { done ring_bursts (lent words.new handles.new sizes.new) answers.new
        ≡ outcome ring_bursts (lent words.old handles.old sizes.old)
        calls.now answers.old }
{
    let n = answers.len();
    let fit = (calls.len() % 6 == 0) & (calls.len() / 6 == n);
    if !fit {
        return REFUSED_CALL;
    }
    let ahead = ready(words, handles.len() as u64, sizes.len() as u64, n as u64);
    if ahead {
        answer_each(
            &mut Lent::<true> {
                words,
                handles,
                sizes,
            },
            calls,
            answers,
        );
        return 0;
    }
    answer_each(
        &mut Lent::<false> {
            words,
            handles,
            sizes,
        },
        calls,
        answers,
    );
    0
}
