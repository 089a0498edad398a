// The rules over the records of a log that was read whole, on a queue that is ready for so many arrivals.
ghost use Rattle.std.specs.Prelude.{◌≡◌, ◌+◌, ◌*◌, ◌<◌, ◌≤◌, length, IfErr, Ok};
ghost use Rattle.ring_words.specs.Words.{state_of};
ghost use Rattle.call_log.specs.Layout.{records_from};
ghost use Rattle.ring_words.specs.Lent.{lent};
ghost use Rattle.ring_steps.specs.Fitting.{Ready};
ghost use Rattle.replay.specs.Replay.{queue_of, replay_from};
ghost use Rattle.replay.specs.Replied.{handed_of, handles_after, replayed_of, sizes_after};

use crate::Replayed;
use crate::calling::call;
use crate::comparing::compare;
use ring_words::{BYTES, PROB};

pub(crate) fn run(
    log: &[u8],
    offset: usize,
    count: usize,
    w: &mut [u64; 23],
    handles: &mut [u32],
    sizes: &mut [u32],
) -> Replayed
    requires count_in_bounds { offset + 40 * count ≤ length log.now }
    requires ready { Ready (lent w.old handles.old sizes.old) count }
    ensures value { handed_of (Ok result) ≡ replayed_of (replay_from 0 (queue_of (state_of w.old) handles.old sizes.old)
        (records_from count log.now offset)) }
    ensures fact { let a = replay_from 0 (queue_of (state_of w.old) handles.old sizes.old)
        (records_from count log.now offset) in
        (handles.new ≡ handles_after a handles.old) × (sizes.new ≡ sizes_after a sizes.old) }
    ensures refused_above_zero { IfErr result.answer (λ n. 0 < n) }
{
    for i in 0..count {
        let r = log_codec::get(log, offset + 40 * i);
        let c = call(w, r, handles, sizes);
        let field = compare(r, c, w[PROB], w[BYTES]);
        if field.is_some() {
            return Replayed {
                field,
                number: i as u64,
                answer: c,
                prob: w[PROB],
                bytes: w[BYTES],
            };
        }
    }
    Replayed {
        field: None,
        number: count as u64,
        answer: Ok(0),
        prob: w[PROB],
        bytes: w[BYTES],
    }
}
