// One entry for a list of calls on one flow: record and row are tested once, and each call is answered as the single entries would.
#![tactic(auto)]

mod call;

ghost use Rattle.std.specs.Prelude.{◌≡◌, cond, true, ℕ, ◌+◌, ◌*◌, ◌≤◌, ◌<◌, length};
ghost use Rattle.pie.specs.Constants.{most_verdicts};
ghost use Rattle.pie.specs.Verdicts.{total};
ghost use Rattle.bursts.specs.Burst.{burst, done, fits, outcome};
ghost use Rattle.modem_flow.specs.State.{formed};
ghost use Rattle.modem.specs.Calls.{tick as modem_tick};
ghost use Rattle.modem.specs.Counts.{row_of};
ghost use Rattle.refusals.specs.Codes.{code_of};
ghost use Rattle.modem_words.specs.Lent.{lent};
ghost use Rattle.modem_words.specs.Words.{state_of, state_words};
ghost use Rattle.modem_steps.specs.Fitting.{Ready};
ghost use Rattle.modem_burst.specs.Calls.{call_at};
ghost use Rattle.bursts.specs.Answers.{answer_word};
ghost use Rattle.modem_burst.specs.Burst.{after, answer_to, flow_bursts, modem_bursts};

use crate::call::{Read, read_at};
use bursts::{Queue, answer_each, has_room, word};
use modem_steps::{arrive, depart, lent_arrival, lent_departure, lent_tick, tick};
use modem_words::{SLOTS, record_fits};

// What a call of no known kind is answered, and what a list is that has not six numbers for each answer.
const UNKNOWN: u64 = 120;

const MISFIT: u32 = 120;

// The call at `at`, of a flow that is ready for it.
fn known(
    w: &mut [u64; 16],
    counts: &mut [[u64; 5]; 16],
    flow: u32,
    handles: &mut [u32],
    sizes: &mut [u32],
    calls: &[u32],
    at: usize,
) -> u64
    requires ready { Ready flow (lent w.old counts.old handles.old sizes.old) 1 }
    requires at_in_bounds { at + 5 < length calls.now }
    ensures { let q = lent w.old counts.old handles.old sizes.old in
        let c = call_at calls.now at in
        (result ≡ answer_word (answer_to flow q c))
        × (lent w.new counts.new handles.new sizes.new ≡ after flow q c) }
{
    match read_at(calls, at) {
        Some(Read::Departure { clock }) => depart(w, handles, sizes, clock),
        Some(Read::Arrival { clock, .. }) => arrive(
            w, counts, flow, handles, sizes, calls, at, clock,
        ),
        Some(Read::Tick { clock, credits }) => tick(w, clock, u64::from(credits)),
        None => UNKNOWN,
    }
}

// A tick, as the single entry answers it. Since this calls `tick` too, the compiler leaves it out of the loop over the calls
// (docs/PERFORMANCE.md).
fn single_tick(
    w: &mut [u64; 16],
    counts: &[[u64; 5]; 16],
    flow: u32,
    clock: u64,
    credits: u32,
) -> u64
    ensures { let a = modem_tick (state_of w.old) counts.now flow clock credits in
        (result ≡ code_of a.answer)
        × (w.new ≡ state_words a.state)
        × (counts.now ≡ a.counts) }
{
    let formed = record_fits(w, counts, flow);
    if formed {
        return tick(w, clock, u64::from(credits));
    }
    u64::from(lent_tick(w, counts, flow, clock, credits))
}

// The call at `at`, by the single entries.
fn single(
    w: &mut [u64; 16],
    counts: &mut [[u64; 5]; 16],
    flow: u32,
    handles: &mut [u32],
    sizes: &mut [u32],
    calls: &[u32],
    at: usize,
) -> u64
    requires { at + 5 < length calls.now }
    ensures { let q = lent w.old counts.old handles.old sizes.old in
        let c = call_at calls.now at in
        (result ≡ answer_word (answer_to flow q c))
        × (lent w.new counts.new handles.new sizes.new ≡ after flow q c) }
{
    match read_at(calls, at) {
        Some(Read::Departure { clock }) => {
            let mut packet: [u32; 2] = [0, 0];
            let code = lent_departure(w, counts, flow, handles, sizes, clock, &mut packet);
            word(code, packet[1], packet[0])
        }
        Some(Read::Arrival { clock, packet, u }) => {
            let code = lent_arrival(
                w,
                counts,
                flow,
                handles,
                sizes,
                clock,
                packet.handle,
                packet.size,
                u,
            );
            u64::from(code)
        }
        Some(Read::Tick { clock, credits }) => single_tick(w, counts, flow, clock, credits),
        None => UNKNOWN,
    }
}

// Whether the flow is one of sixteen, state and row are well formed, the tables fit and the row has room for `n` arrivals. It decides only
// the cost.
fn ready(
    w: &[u64; 16],
    counts: &[[u64; 5]; 16],
    flow: u32,
    handles: u64,
    sizes: u64,
    n: u64,
) -> bool
    ensures { (result ≡ true) → (flow ≤ 15)
        × ((length w.now ≡ 16)
        × (formed (state_of w.now) ≡ true)
        × (handles ≡ (state_of w.now).settings.slots)
        × (sizes ≡ (state_of w.now).settings.slots))
        × (total (row_of counts.now flow) + n ≤ most_verdicts) }
{
    let formed = record_fits(w, counts, flow);
    if !formed {
        return false;
    }
    if handles != w[SLOTS] {
        return false;
    }
    if sizes != w[SLOTS] {
        return false;
    }
    has_room(counts[flow as usize], n)
}

// A flow as it is lent. Where `TESTED`, it is ready for the calls.
#[derive(Drop)]
struct Lent<'a, const TESTED: bool> {
    words: &'a mut [u64; 16],
    counts: &'a mut [[u64; 5]; 16],
    flow: u32,
    handles: &'a mut [u32],
    sizes: &'a mut [u32],
}

impl Queue for Lent<'_, true> {
    ghost kind = { modem_bursts };

    ghost state = { λ q. (q.flow, lent q.words.now q.counts.now q.handles.now q.sizes.now) };

    ghost ready = { λ q n. Ready q.flow (lent q.words.now q.counts.now q.handles.now q.sizes.now) n };

    ghost Names = { ℕ × ℕ × ℕ × ℕ };

    ghost names = { λ q. (q.words.ghost_name, q.counts.ghost_name, q.handles.ghost_name, q.sizes.ghost_name) };

    fn answer(&mut self, calls: &[u32], i: usize) -> u64 {
        known(
            self.words,
            self.counts,
            self.flow,
            self.handles,
            self.sizes,
            calls,
            6 * i,
        )
    }
}

impl Queue for Lent<'_, false> {
    ghost kind = { modem_bursts };

    ghost state = { λ q. (q.flow, lent q.words.now q.counts.now q.handles.now q.sizes.now) };

    ghost ready = { λ q n. Unit {0} };

    ghost Names = { ℕ × ℕ × ℕ × ℕ };

    ghost names = { λ q. (q.words.ghost_name, q.counts.ghost_name, q.handles.ghost_name, q.sizes.ghost_name) };

    fn answer(&mut self, calls: &[u32], i: usize) -> u64 {
        single(
            self.words,
            self.counts,
            self.flow,
            self.handles,
            self.sizes,
            calls,
            6 * i,
        )
    }
}

// `calls` has six numbers for each of `answers`; where it has not, nothing is done.
#[unsafe(no_mangle)]
pub extern "C" fn obikuteru_modem_calls(
    words: &mut [u64; 16],
    counts: &mut [[u64; 5]; 16],
    flow: u32,
    handles: &mut [u32],
    sizes: &mut [u32],
    calls: &[u32],
    answers: &mut [u64],
) -> u32
    ensures value { result ≡ cond (fits (flow_bursts flow) calls.now answers.old) 0 120 }
    ensures answers_after { done (flow_bursts flow) (lent words.new counts.new handles.new sizes.new)
        answers.new
        ≡ outcome (flow_bursts flow) (lent words.old counts.old handles.old sizes.old)
        calls.now answers.old }
{
    let n = answers.len();
    let fit = (calls.len() % 6 == 0) & (calls.len() / 6 == n);
    if !fit {
        return MISFIT;
    }
    let ahead = ready(
        words,
        counts,
        flow,
        handles.len() as u64,
        sizes.len() as u64,
        n as u64,
    );
    if ahead {
        answer_each(
            &mut Lent::<true> {
                words,
                counts,
                flow,
                handles,
                sizes,
            },
            calls,
            answers,
        );
        return 0;
    }
    answer_each(
        &mut Lent::<false> {
            words,
            counts,
            flow,
            handles,
            sizes,
        },
        calls,
        answers,
    );
    0
}
