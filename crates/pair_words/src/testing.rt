// Whether the records that the words hold are well formed.
ghost use Rattle.std.specs.Prelude.{◌≡◌, true, length};
ghost use Rattle.pair_rules.specs.WellFormed.{well_formed};
ghost use Rattle.pair_words.specs.Words.{pair_of};

use crate::records::{decode, decode_shared};
use pair_rules::Which;

// `second`, as C names the called queue. Each queue's words are read for its own test, so that the compiler keeps none of them over the
// other's (docs/PERFORMANCE.md).
pub fn records_fit(shared: &[u64; 6], own: &[u64; 21], other: &[u64; 21], second: bool) -> bool
    ensures value { result ≡ well_formed (pair_of second shared.now own.now other.now) }
    ensures shared_len { (result ≡ true) → ((length shared.now ≡ 6)
        × (length own.now ≡ 21)
        × (length other.now ≡ 21)) }
{
    let seen = decode_shared(*shared).facing(Which::from(second));
    if !seen.fits() {
        return false;
    }
    let theirs = decode(*other);
    if !theirs.fits(seen.slots) {
        return false;
    }
    let mine = decode(*own);
    if !mine.fits(seen.slots) {
        return false;
    }
    seen.holds(mine, theirs)
}
