// A log checked by the rules: they run from its settings over its calls, and its answers are held against theirs.
#![tactic(auto)]

ghost use Rattle.std.specs.Prelude.{◌≡◌};
ghost use Rattle.replay.specs.Replay.{replay};
ghost use Rattle.replay.specs.Replied.{handles_after, sizes_after};
ghost use Rattle.replay.specs.Found.{code_of, words_of};

mod calling;
mod comparing;
mod numbering;
mod replaying;
mod running;

use numbering::{code, words};
pub use replaying::replay;

// Why a log is not replayed.
#[derive(Clone, Copy, PartialEq, Eq)]
pub enum Refusal {
    // The log is bad.
    Log(call_log::Refusal),
    // The tables do not fit it.
    Tables,
}

// What can disagree in a record, in this order.
#[derive(Clone, Copy, PartialEq, Eq)]
pub enum Field {
    Verdict,
    Probability,
    Bytes,
}

// What a replay found.
#[derive(Clone, Copy, PartialEq, Eq)]
pub struct Replayed {
    // The first field that disagrees; none where the log is accepted.
    pub field: Option<Field>,
    // The number of the record that disagrees; of records where the log is accepted.
    pub number: u64,
    // By the rules, of that call: its verdict or the number of its refusal, and probability and bytes after it.
    pub answer: Result<u32, u32>,
    pub prob: u64,
    pub bytes: u64,
}

// The C entry (include/obikuteru.h). It has an object of its own: a second call of the steps in one object would leave them calls.
#[unsafe(no_mangle)]
pub extern "C" fn obikuteru_replay(
    log: &[u8],
    handles: &mut [u32],
    sizes: &mut [u32],
    found: &mut [u64; 5],
) -> u32
    ensures { let a = replay log.now handles.old sizes.old in
        (result ≡ code_of a)
        × (found.new ≡ words_of a)
        × (handles.new ≡ handles_after a handles.old)
        × (sizes.new ≡ sizes_after a sizes.old) }
{
    match replay(log, handles, sizes) {
        Ok(r) => {
            *found = words(r);
            code(r.field)
        }
        Err(refusal) => {
            *found = [0; 5];
            100 + refusal.number()
        }
    }
}
