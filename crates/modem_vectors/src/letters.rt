// The letters of the notation: the place of each among the numbers, its code modulo 32.
pub(crate) const ACCUMULATED: usize = 1;

pub(crate) const BUFFER: usize = 2;

pub(crate) const CLOCK: usize = 3;

pub(crate) const LATER: usize = 4;

pub(crate) const LAST: usize = 5;

pub(crate) const FLOW: usize = 6;

pub(crate) const ROW: usize = 7;

pub(crate) const HANDLE: usize = 8;

pub(crate) const FIRST: usize = 9;

pub(crate) const CALL: usize = 10;

pub(crate) const PEAK: usize = 11;

pub(crate) const ALLOWANCE: usize = 12;

pub(crate) const COUNT: usize = 13;

pub(crate) const SLOTS: usize = 14;

pub(crate) const OLD: usize = 15;

pub(crate) const PROB: usize = 16;

pub(crate) const BYTES: usize = 17;

pub(crate) const RESET: usize = 18;

pub(crate) const SUSTAINED: usize = 19;

pub(crate) const TARGET: usize = 20;

pub(crate) const RANDOM: usize = 21;

pub(crate) const OTHERS: usize = 24;

pub(crate) const ACTIVITY: usize = 25;

pub(crate) const SIZE: usize = 26;

// Capital letters alone: the refusal, the verdict, and the counts of the flow.
pub(crate) const REFUSAL: usize = 6;

pub(crate) const VERDICT: usize = 22;

pub(crate) const ENQUEUED: usize = 5;

pub(crate) const MARKED: usize = 13;

pub(crate) const DROPPED_BYTES: usize = 2;

pub(crate) const DROPPED_SLOTS: usize = 19;

pub(crate) const DROPPED_EARLY: usize = 4;
