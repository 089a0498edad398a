// The drop decision.
ghost use Rattle.std.specs.Prelude.{◌≡◌, ◌+◌, ◌≤◌, ◌<◌, get_or, length};
ghost use Rattle.units.specs.Kinds.{whole};
ghost use Rattle.pie.specs.Constants.{longest};
ghost use Rattle.pie.specs.DropDecision.{spared};
ghost use Rattle.pie_words.specs.Words.{pie_at};

use crate::measuring::rate_at;
use crate::offsets::{ACCUMULATED, ALLOWANCE, BYTES, OLD};
use pie::{Pie, in_allowance, light, short, small};
use units::{Bytes, Micros, Prob};

// The algorithm's record in the words.
pub fn pie_at(w: &[u64], k: usize) -> Pie
    requires { k + 9 < length w.now }
    ensures { result ≡ pie_at w.now k }
{
    let rate = rate_at(w, k);
    Pie {
        prob: Prob(w[k]),
        old: Micros(w[k + OLD]),
        allowance: Micros(w[k + ALLOWANCE]),
        accumulated: Prob(w[k + ACCUMULATED]),
        rate,
    }
}

// Rules 3 to 5. A word is read where its rule is asked.
pub fn spares(w: &[u64], k: usize, target: Micros) -> bool
    requires k_in_bounds { k + 9 < length w.now }
    requires k_bound { (get_or w.now k 0 ≤ whole) × (get_or w.now (k + 1) 0 ≤ longest) }
    ensures { result ≡ spared (pie_at w.now k) target.0 (get_or w.now (k + 9) 0) }
{
    in_allowance(Micros(w[k + ALLOWANCE]))
        || (short(Micros(w[k + OLD]), target) && light(Prob(w[k])))
        || small(Bytes(w[k + BYTES]))
}
