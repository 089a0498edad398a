// One entry for a list of calls on 64 flows: the record is tested once, and each call is answered as the single entries would.
#![tactic(auto)]

ghost use Rattle.std.specs.Prelude.{◌≡◌, cond, false, true, ℕ, ◌+◌, ◌*◌, ◌≤◌, ◌<◌, length};
ghost use Rattle.bursts.specs.Burst.{burst, done, fits, outcome};
ghost use Rattle.pie.specs.Constants.{most_verdicts};
ghost use Rattle.pie.specs.Verdicts.{total};
ghost use Rattle.fq_state.specs.State.{counts_of};
ghost use Rattle.fq_state.specs.WellFormed.{well_formed};
ghost use Rattle.fq_words.specs.Words.{common_of, flows_of, lent};
ghost use Rattle.fq_guarantees.specs.Kept.{Sound};
ghost use Rattle.fq_burst.specs.Calls.{call_at};
ghost use Rattle.fq_burst.specs.Burst.{after, answer_to, answer_word, fq_bursts, held};

use crate::call::{Read, read_at};
use crate::numbers::{malformed, word};
use bursts::{Queue, REFUSED_CALL, answer_each, has_room};
use fq_steps::{arrive, depart, update};
use fq_words::{ENQUEUED, fits};
use pie_words::counts_at;

mod call;
mod numbers;

// The call at `at`, on a well-formed record. The counts are the flows'. Where `room`, those of the verdicts are not full.
fn answered(
    common: &mut [u64; 19],
    order: &mut [u64; 64],
    flows: &mut [u64; 768],
    deficits: &mut [u32; 64],
    counts: &mut [u32; 64],
    handles: &mut [u32],
    sizes: &mut [u32],
    calls: &[u32],
    at: usize,
    room: bool,
) -> u64
    requires sound { Sound (lent common.old order.old deficits.old flows.old) }
    requires counts_value { counts.old ≡ counts_of (flows_of flows.old) }
    requires at_in_bounds { at + 9 < length calls.now }
    requires common_bound { (room ≡ true) → (total (common_of common.old).verdicts < most_verdicts) }
    ensures fact { let q = held common.old order.old flows.old deficits.old
        handles.old sizes.old in
        (result ≡ answer_word (answer_to q (call_at calls.now at)))
        × (held common.new order.new flows.new deficits.new
        handles.new sizes.new
        ≡ after q (call_at calls.now at)) }
    ensures counts_after { counts.new ≡ counts_of (flows_of flows.new) }
{
    match read_at(calls, at) {
        Some(
            Read::Arrival {
                clock,
                key,
                handle,
                size,
                ecn,
                u,
            },
        ) => u64::from(arrive(
            common, order, flows, deficits, counts, handles, sizes, clock, &key, handle, size, ecn,
            u, room,
        )),
        Some(Read::Departure { clock }) => {
            let mut packet: [u32; 3] = [0, 0, 0];
            let code = depart(
                common,
                order,
                flows,
                deficits,
                counts,
                handles,
                sizes,
                clock,
                &mut packet,
            );
            word(code, packet[0], packet[2], packet[1])
        }
        Some(Read::Tick { clock }) => u64::from(update(common, order, flows, deficits, clock)),
        None => u64::from(REFUSED_CALL),
    }
}

// The flows as they are lent, with the counts of each. Where `FORMED`, the record is well formed; where `room`, it has room for the calls.
// `room` is no parameter of the type: `fq_steps::arrive` and what it calls take the value, and a third impl would do the same as the first.
#[derive(Drop)]
struct Lent<'a, const FORMED: bool> {
    common: &'a mut [u64; 19],
    order: &'a mut [u64; 64],
    flows: &'a mut [u64; 768],
    deficits: &'a mut [u32; 64],
    counts: &'a mut [u32; 64],
    handles: &'a mut [u32],
    sizes: &'a mut [u32],
    room: bool,
}

impl Queue for Lent<'_, true> {
    ghost kind = { fq_bursts };

    ghost state = { λ q. held q.common.now q.order.now q.flows.now q.deficits.now q.handles.now q.sizes.now };

    ghost ready = { λ q n. Sound (lent q.common.now q.order.now q.deficits.now q.flows.now)
        × (q.counts.now ≡ counts_of (flows_of q.flows.now))
        × ((q.room ≡ true) → (total (common_of q.common.now).verdicts + n ≤ most_verdicts)) };

    ghost Names = { ℕ × ℕ × ℕ × ℕ × ℕ × ℕ };

    ghost names = { λ q. (q.common.ghost_name, q.order.ghost_name, q.flows.ghost_name, q.deficits.ghost_name, q.handles.ghost_name, q.sizes.ghost_name) };

    fn answer(&mut self, calls: &[u32], i: usize) -> u64 {
        answered(
            self.common,
            self.order,
            self.flows,
            self.deficits,
            self.counts,
            self.handles,
            self.sizes,
            calls,
            10 * i,
            self.room,
        )
    }
}

// No call changes a record that is not well formed.
impl Queue for Lent<'_, false> {
    ghost kind = { fq_bursts };

    ghost state = { λ q. held q.common.now q.order.now q.flows.now q.deficits.now q.handles.now q.sizes.now };

    ghost ready = { λ q n. well_formed (lent q.common.now q.order.now q.deficits.now q.flows.now) ≡ false };

    ghost Names = { ℕ × ℕ × ℕ × ℕ × ℕ × ℕ };

    ghost names = { λ q. (q.common.ghost_name, q.order.ghost_name, q.flows.ghost_name, q.deficits.ghost_name, q.handles.ghost_name, q.sizes.ghost_name) };

    fn answer(&mut self, calls: &[u32], i: usize) -> u64 {
        u64::from(malformed(calls[10 * i + 5]))
    }
}

// `calls` has ten numbers for each of `answers`; where it has not, nothing is done.
#[unsafe(no_mangle)]
pub extern "C" fn obikuteru_fq_calls_of(
    common: &mut [u64; 19],
    order: &mut [u64; 64],
    flows: &mut [u64; 768],
    deficits: &mut [u32; 64],
    handles: &mut [u32],
    sizes: &mut [u32],
    calls: &[u32],
    answers: &mut [u64],
) -> u32
    ensures value { result ≡ cond (fits fq_bursts calls.now answers.old) 0 120 }
    ensures answers_after { done fq_bursts (held common.new order.new flows.new deficits.new
        handles.new sizes.new) answers.new
        ≡ outcome fq_bursts (held common.old order.old flows.old deficits.old
        handles.old sizes.old) calls.now answers.old }
{
    let n = answers.len();
    let fit = (calls.len() % 10 == 0) & (calls.len() / 10 == n);
    if !fit {
        return REFUSED_CALL;
    }
    let mut counts = [0u32; 64];
    let formed = fits(common, order, deficits, flows, &mut counts);
    if !formed {
        answer_each(
            &mut Lent::<false> {
                common,
                order,
                flows,
                deficits,
                counts: &mut counts,
                handles,
                sizes,
                room: false,
            },
            calls,
            answers,
        );
        return 0;
    }
    let room = has_room(counts_at(common, ENQUEUED), n as u64);
    // A copy, which can stand in registers.
    let mut words = *common;
    answer_each(
        &mut Lent::<true> {
            common: &mut words,
            order,
            flows,
            deficits,
            counts: &mut counts,
            handles,
            sizes,
            room,
        },
        calls,
        answers,
    );
    *common = words;
    0
}
