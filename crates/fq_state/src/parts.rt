// The parts of a flow: three, so each has its name and none is a `From`.
ghost use Rattle.std.specs.Prelude.{◌≡◌};
ghost use Rattle.fq_state.specs.Flow.{backlog_of, ends_of, flow_with, pie_of};

use crate::Flow;
use pie::{Backlog, Pie, Rate};
use pie_words::flag;
use store::Ends;
use units::{Bytes, Micros, Prob};

impl Flow {
    pub fn pie(self) -> Pie
        ensures { result ≡ pie_of self }
    {
        let rate = Rate {
            average: Micros(self.average),
            measuring: self.measuring != 0,
            start: Micros(self.start),
            counted: Bytes(self.counted),
        };
        Pie {
            prob: Prob(self.prob),
            old: Micros(self.old),
            allowance: Micros(self.allowance),
            accumulated: Prob(self.accumulated),
            rate,
        }
    }

    pub fn backlog(self) -> Backlog
        ensures { result ≡ backlog_of self }
    {
        Backlog {
            count: self.count,
            bytes: Bytes(self.bytes),
        }
    }

    pub fn ends(self) -> Ends
        ensures { result ≡ ends_of self }
    {
        Ends {
            head: self.head,
            tail: self.tail,
        }
    }

    // The flow with this PIE state, these packets and this chain.
    pub fn with(self, pie: Pie, backlog: Backlog, ends: Ends) -> Flow
        ensures { result ≡ flow_with self pie backlog ends }
    {
        Flow {
            prob: pie.prob.0,
            old: pie.old.0,
            allowance: pie.allowance.0,
            accumulated: pie.accumulated.0,
            average: pie.rate.average.0,
            measuring: flag(self.measuring, pie.rate.measuring),
            start: pie.rate.start.0,
            counted: pie.rate.counted.0,
            count: backlog.count,
            bytes: backlog.bytes.0,
            head: ends.head,
            tail: ends.tail,
        }
    }
}
