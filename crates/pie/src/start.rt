// The algorithm as it begins.
ghost use Rattle.std.specs.Prelude.{◌≡◌};
ghost use Rattle.pie.specs.Start.{restarted, unstarted};

use crate::constants::FULL_ALLOWANCE;
use crate::{Pie, Rate};
use units::{Bytes, Micros, Prob};

impl Pie {
    // Nothing measured and nothing accumulated, with this allowance.
    pub fn unstarted(allowance: Micros) -> Pie
        ensures { result ≡ unstarted allowance.0 }
    {
        let rate = Rate {
            average: Micros(0),
            measuring: false,
            start: Micros(0),
            counted: Bytes(0),
        };
        Pie {
            prob: Prob::NONE,
            old: Micros(0),
            allowance,
            accumulated: Prob::NONE,
            rate,
        }
    }

    // The same, with the full allowance.
    pub fn restarted() -> Pie
        ensures { result ≡ restarted }
    {
        Pie::unstarted(Micros(FULL_ALLOWANCE))
    }
}
