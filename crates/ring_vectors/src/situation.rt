// States that an example starts from, changed one number at a time, and one call on each.
use crate::print::Answered;
use pie::{Backlog, Pie, Rate};
use ring::{Settings, State};
use units::{Bytes, Micros, Prob};

#[derive(Clone, Copy)]
pub struct Situation {
    pub target: u64,
    pub bytes: u64,
    pub prob: u64,
    pub old: u64,
    pub allowance: u64,
    pub average: u64,
}

impl Situation {
    // No allowance, a delay above half the target, more than a small queue: rule 6 decides.
    pub(crate) fn loaded() -> Situation {
        Situation {
            target: 15_000,
            bytes: 20_000,
            prob: 1_000_000,
            old: 10_000,
            allowance: 0,
            average: 0,
        }
    }

    // 16,384 bytes queued with an average of 14,000: a delay of 14,000.
    pub(crate) fn measured() -> Situation {
        Situation {
            target: 15_000,
            bytes: 16_384,
            prob: 1_000_000,
            old: 15_000,
            allowance: 0,
            average: 14_000,
        }
    }

    // An empty queue at rest.
    pub(crate) fn resting() -> Situation {
        Situation {
            target: 15_000,
            bytes: 0,
            prob: 0,
            old: 0,
            allowance: 0,
            average: 14_000,
        }
    }

    pub(crate) fn with_target(self, target: u64) -> Situation {
        Situation { target, ..self }
    }

    pub(crate) fn with_bytes(self, bytes: u64) -> Situation {
        Situation { bytes, ..self }
    }

    pub(crate) fn with_prob(self, prob: u64) -> Situation {
        Situation { prob, ..self }
    }

    pub(crate) fn with_old(self, old: u64) -> Situation {
        Situation { old, ..self }
    }

    pub(crate) fn with_allowance(self, allowance: u64) -> Situation {
        Situation { allowance, ..self }
    }

    // One packet holds all the bytes; the clock and the last tick are 0; the accumulated probability is 2^32.
    pub(crate) fn state(self) -> State {
        let rate = Rate {
            average: Micros(self.average),
            measuring: false,
            start: Micros(0),
            counted: Bytes(0),
        };
        let pie = Pie {
            prob: Prob(self.prob),
            old: Micros(self.old),
            allowance: Micros(self.allowance),
            accumulated: Prob::WHOLE,
            rate,
        };
        let count = if self.bytes == 0 { 0 } else { 1 };
        let backlog = Backlog {
            count,
            bytes: Bytes(self.bytes),
        };
        let settings = Settings {
            target: Micros(self.target),
            buffer: Bytes(64_000),
            slots: 4,
            profile: 0,
        };
        State {
            settings,
            clock: Micros(0),
            last: Micros(0),
            pie,
            backlog,
            first: 0,
            verdicts: [0, 0, 0, 0, 0],
            active: true,
        }
    }

    // A packet of 1,000 bytes, not ECN-capable, arrives.
    pub(crate) fn arrival(self, u: u32) -> Answered {
        let mut handles = [0u32; 4];
        let mut sizes = [0u32; 4];
        let mut s = self.state();
        Answered(s.arrival(
            &mut handles,
            &mut sizes,
            Micros(0),
            7,
            Bytes(1_000),
            false,
            u,
        ))
    }
}
