// A log over lent bytes and lent tables: read whole, then run from a fresh queue.
ghost use Rattle.std.specs.Prelude.{◌≡◌, ◌<◌, ◌≤◌, IfErr, IfOk};
ghost use Rattle.call_log.specs.Answers.{given};
ghost use Rattle.call_log.specs.Whole.{read_whole, shape_in};
ghost use Rattle.replay.specs.Replay.{replay as replay_by};
ghost use Rattle.replay.specs.Replied.{handed_of, handles_after, replayed_of, sizes_after};

use crate::running::run;
use crate::{Refusal, Replayed};
use ring::State;
use ring_words::encode;
use units::{Bytes, Micros};

// A log that was read whole, with its offset and count.
fn replay_whole(
    log: &[u8],
    offset: usize,
    count: usize,
    handles: &mut [u32],
    sizes: &mut [u32],
) -> Result<Replayed, Refusal>
    requires log_value { shape_in (read_whole log.now) ≡ given (offset, count) }
    requires count_bound { count ≤ 4294967295 }
    ensures value { handed_of result ≡ replayed_of (replay_by log.now handles.old sizes.old) }
    ensures fact { let a = replay_by log.now handles.old sizes.old in
        (handles.new ≡ handles_after a handles.old) × (sizes.new ≡ sizes_after a sizes.old) }
    ensures refused_above_zero { IfOk result (λ r. IfErr r.answer (λ n. 0 < n)) }
{
    let h = log_codec::get_header(log, 0);
    let slots = h.slots as u64;
    let misfit = !((handles.len() as u64 == slots) & (sizes.len() as u64 == slots));
    if misfit {
        return Err(Refusal::Tables);
    }
    let mut w: [u64; 23] = [0; 23];
    let fresh = State::fresh(
        Micros(h.target),
        Bytes(h.buffer as u64),
        slots,
        h.profile as u64,
        Micros(h.clock),
    );
    encode(&mut w, fresh.state);
    Ok(run(log, offset, count, &mut w, handles, sizes))
}

// What the tables hold beforehand does not matter; afterwards they hold what the rules wrote.
pub fn replay(log: &[u8], handles: &mut [u32], sizes: &mut [u32]) -> Result<Replayed, Refusal>
    ensures value { handed_of result ≡ replayed_of (replay_by log.now handles.old sizes.old) }
    ensures fact { let a = replay_by log.now handles.old sizes.old in
        (handles.new ≡ handles_after a handles.old) × (sizes.new ≡ sizes_after a sizes.old) }
    ensures refused_above_zero { IfOk result (λ r. IfErr r.answer (λ n. 0 < n)) }
{
    match call_log::check(log) {
        Ok(w) => replay_whole(log, w.offset as usize, w.count as usize, handles, sizes),
        Err(refusal) => Err(Refusal::Log(refusal)),
    }
}
