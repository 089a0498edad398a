// Whether a measurement can stand in a record.
ghost use Rattle.std.specs.Prelude.{◌≡◌, ◌&&◌, ◌||◌, not, eqb, leb, ltb};
ghost use Rattle.pie.specs.Constants.{threshold};

use crate::{Rate, THRESHOLD};
use units::Micros;

// The measurement: start and counted bytes are 0 if none runs, and none runs on an empty queue.
pub fn measurement_fits(rate: Rate, clock: Micros, count: u64) -> bool
    ensures { result ≡ (leb rate.start.0 clock.0 && ltb rate.counted.0 threshold
        && (rate.measuring || eqb rate.start.0 0) && (rate.measuring || eqb rate.counted.0 0)
        && not (rate.measuring && eqb count 0)) }
{
    let runs = rate.measuring;
    if runs {
        return (rate.start.0 <= clock.0) & (rate.counted.0 < THRESHOLD) & (count != 0);
    }
    (rate.start.0 == 0) & (rate.counted.0 == 0)
}
