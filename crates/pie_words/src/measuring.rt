// The departure rate.
ghost use Rattle.std.specs.Prelude.{◌≡◌, ◌+◌, ◌≤◌, ◌<◌, get_or, length};
ghost use Rattle.pie.specs.Constants.{largest, longest, threshold};
ghost use Rattle.pie.specs.DepartureRate.{rate_after};
ghost use Rattle.pie_words.specs.Flags.{is_set};
ghost use Rattle.pie_words.specs.Words.{rate_at, rate_words};

use crate::offsets::{AVERAGE, COUNTED, MEASURING, START};
use pie::{Backlog, Rate};
use units::{Bytes, Micros};

pub fn rate_at(w: &[u64], k: usize) -> Rate
    requires { k + 9 < length w.now }
    ensures { result ≡ rate_at w.now k }
{
    Rate {
        average: Micros(w[k + AVERAGE]),
        measuring: w[k + MEASURING] != 0,
        start: Micros(w[k + START]),
        counted: Bytes(w[k + COUNTED]),
    }
}

// Writes another rate; whether a measurement ran, the caller has read.
fn write_rate(w: &mut [u64], k: usize, ran: bool, next: Rate)
    requires k_in_bounds { k + 9 < length w.old }
    requires ran_value { ran ≡ is_set (get_or w.old (k + 5) 0) }
    ensures { w.new ≡ rate_words w.old k next }
{
    w[k + AVERAGE] = next.average.0;
    w[k + START] = next.start.0;
    w[k + COUNTED] = next.counted.0;
    if next.measuring {
        if !ran {
            w[k + MEASURING] = 1;
        }
    } else {
        w[k + MEASURING] = 0;
    }
}

// A packet leaves, and this backlog is left. Only the counted bytes are written where a measurement goes on, and nothing where none runs
// or starts.
pub fn measure(w: &mut [u64], k: usize, clock: Micros, size: Bytes, left: Backlog)
    requires k_in_bounds { k + 9 < length w.old }
    requires k_bound { (get_or w.old (k + 6) 0 ≤ clock.0) × (get_or w.old (k + 4) 0 ≤ longest)
        × (get_or w.old (k + 7) 0 < threshold) × (size.0 ≤ largest) }
    ensures { w.new ≡ rate_words w.old k
        (rate_after (rate_at w.old k) clock.0 size.0 left.count left.bytes.0) }
{
    let rate = rate_at(w, k);
    if rate.measuring {
        let counted = rate.count(clock, size, left.count);
        if counted.measuring {
            w[k + COUNTED] = counted.counted.0;
            return;
        }
        let next = counted.begin(clock, left.bytes);
        write_rate(w, k, true, next);
        return;
    }
    let next = rate.begin(clock, left.bytes);
    if next.measuring {
        write_rate(w, k, false, next);
    }
}
