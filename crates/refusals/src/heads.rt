// The head's size.
ghost use Rattle.std.specs.Prelude.{◌≡◌, ◌≤◌, ◌<◌};
ghost use Rattle.refusals.specs.Tests.{head_refused};

use pie::{Backlog, LARGEST};

// Refusal 9: the head cannot be of this size.
#[tactic(auto, unfolding(crate::specs::Tests::head_refused))]
pub fn wrong_head(backlog: Backlog, size: u64) -> bool
    requires { (0 < backlog.count) × (backlog.count ≤ 65536) }
    ensures { result ≡ head_refused backlog size }
{
    let Some(left) = backlog.bytes.0.checked_sub(size) else {
        return true;
    };
    let others = backlog.count - 1;
    (size == 0) | (LARGEST < size) | (left < others) | (LARGEST * others < left)
}
