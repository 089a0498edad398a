// A departure of a queue whose record and tables fit.
ghost use Rattle.std.specs.Prelude.{◌≡◌};
ghost use Rattle.ring.specs.Departure.{departure};
ghost use Rattle.ring_words.specs.Codes.{words_after};
ghost use Rattle.ring_words.specs.Words.{state_of};
ghost use Rattle.bursts.specs.Answers.{answer_word};
ghost use Rattle.ring_words.specs.Lent.{lent};
ghost use Rattle.ring_steps.specs.Fitting.{Fitting};

use crate::codes::refused;
use bursts::{wide, word};
use pie::{Backlog, LATEST};
use pie_words::measure;
use places::following;
use refusals::{Refusal, wrong_head};
use ring_words::{BYTES, CLOCK, COUNT, FIRST, PIE, SLOTS};
use units::{Bytes, Micros};

// The head leaves.
pub fn depart(w: &mut [u64; 23], handles: &[u32], sizes: &[u32], clock: u64) -> u64
    requires { Fitting (lent w.old handles.now sizes.now) }
    ensures { let a = departure (state_of w.old) handles.now sizes.now clock in
        (result ≡ answer_word a.answer) × (w.new ≡ words_after a w.old) }
{
    let wrong_clock = (clock < w[CLOCK]) | (LATEST < clock);
    if wrong_clock {
        return refused(Refusal::Clock);
    }
    let count = w[COUNT];
    let bytes = w[BYTES];
    let empty = count == 0;
    if empty {
        return refused(Refusal::Empty);
    }
    let first = w[FIRST];
    let at = first as usize;
    let head = sizes[at];
    let size = wide(head);
    let backlog = Backlog {
        count,
        bytes: Bytes(bytes),
    };
    let wrong = wrong_head(backlog, size);
    if wrong {
        return refused(Refusal::Head);
    }
    let handle = handles[at];
    let rest = backlog.leave(Bytes(size));
    let next = following(first, w[SLOTS]);
    w[CLOCK] = clock;
    w[COUNT] = rest.count;
    w[BYTES] = rest.bytes.0;
    w[FIRST] = next;
    measure(w, PIE, Micros(clock), Bytes(size), rest);
    word(0, head, handle)
}
