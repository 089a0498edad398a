// The periodic update.
ghost use Rattle.std.specs.Prelude.{◌≡◌, ◌+◌, ◌≤◌, ◌<◌, ◌^◌, get_or, length};
ghost use Rattle.units.specs.Kinds.{whole};
ghost use Rattle.pie.specs.Constants.{longest};
ghost use Rattle.pie.specs.Update.{updated};
ghost use Rattle.pie_words.specs.Words.{pie_at, updated_words};

use crate::deciding::pie_at;
use crate::offsets::{ALLOWANCE, BYTES, OLD};
use pie::Pie;
use units::{Bytes, Micros};

// A tick, by the calm profile or the plain one. Gives the algorithm's record after it.
pub fn update(w: &mut [u64], k: usize, calm: bool, target: Micros) -> Pie
    requires k_in_bounds { k + 9 < length w.old }
    requires k_bound { (get_or w.old k 0 ≤ whole) × (get_or w.old (k + 1) 0 ≤ longest) × (get_or w.old (k + 4) 0 ≤ longest)
        × (get_or w.old (k + 9) 0 ≤ 2 ^ 24) × (target.0 ≤ 100000) }
    ensures value { result ≡ updated (pie_at w.old k) calm target.0 (get_or w.old (k + 9) 0) }
    ensures w_after { w.new ≡ updated_words w.old k result }
{
    let pie = pie_at(w, k);
    let queued = Bytes(w[k + BYTES]);
    let next = pie.update(calm, target, queued);
    w[k] = next.prob.0;
    w[k + OLD] = next.old.0;
    w[k + ALLOWANCE] = next.allowance.0;
    next
}
