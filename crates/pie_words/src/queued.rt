// The packets queued, and the verdicts counted.
ghost use Rattle.std.specs.Prelude.{◌≡◌, ◌+◌, ◌<◌, length};
ghost use Rattle.pie_words.specs.Words.{backlog_at, counts_at};

use crate::offsets::{BYTES, COUNT};
use pie::Backlog;
use units::Bytes;

// What is queued.
pub fn backlog_at(w: &[u64], k: usize) -> Backlog
    requires { k + 9 < length w.now }
    ensures { result ≡ backlog_at w.now k }
{
    Backlog {
        count: w[k + COUNT],
        bytes: Bytes(w[k + BYTES]),
    }
}

// The five counts of verdicts, in the verdicts' order: they stand from `k` on.
pub fn counts_at(w: &[u64], k: usize) -> [u64; 5]
    requires { k + 4 < length w.now }
    ensures { result ≡ counts_at w.now k }
{
    [w[k], w[k + 1], w[k + 2], w[k + 3], w[k + 4]]
}
