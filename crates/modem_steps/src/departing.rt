// A departure of a flow whose record and tables fit.
ghost use Rattle.std.specs.Prelude.{◌≡◌, List, ℕ, ◌≤◌};
ghost use Rattle.pie.specs.Constants.{most_verdicts};
ghost use Rattle.pie.specs.Verdicts.{total};
ghost use Rattle.modem_flow.specs.Departure.{departure};
ghost use Rattle.modem_words.specs.Words.{state_of, state_words};
ghost use Rattle.bursts.specs.Answers.{answer_word};
ghost use Rattle.modem_steps.specs.Fitting.{Fitting};

use bursts::word;
use modem_words::{BYTES, CLOCK, COUNT, FIRST, SLOTS};
use pie::{Backlog, LATEST};
use places::following;
use refusals::{Refusal, refused, wrong_head};
use units::Bytes;

// The head leaves. The promise is for every row that sums to at most 2^48; the call reads none.
pub fn depart(w: &mut [u64; 16], handles: &[u32], sizes: &[u32], clock: u64) -> u64
    requires { Fitting w.old handles.now sizes.now }
    ensures { (row : List ℕ) → total row ≤ most_verdicts →
        let a = departure (state_of w.old) row handles.now sizes.now clock in
        (result ≡ answer_word a.answer) × (w.new ≡ state_words a.state) }
{
    let wrong_clock = (clock < w[CLOCK]) | (LATEST < clock);
    if wrong_clock {
        return refused(Refusal::Clock) as u64;
    }
    let count = w[COUNT];
    let bytes = w[BYTES];
    let empty = count == 0;
    if empty {
        return refused(Refusal::Empty) as u64;
    }
    let first = w[FIRST];
    let at = first as usize;
    let head = sizes[at];
    let size = u64::from(head);
    let backlog = Backlog {
        count,
        bytes: Bytes(bytes),
    };
    let wrong = wrong_head(backlog, size);
    if wrong {
        return refused(Refusal::Head) as u64;
    }
    let handle = handles[at];
    let next = following(first, w[SLOTS]);
    w[CLOCK] = clock;
    w[FIRST] = next;
    w[COUNT] = count - 1;
    w[BYTES] = bytes - size;
    word(0, head, handle)
}
