// Where each word stands, in the order of struct obikuteru_fq: first among those of what all flows have in common, then among a flow's.
pub const TARGET: usize = 0;

pub const BUFFER: usize = 1;

pub const SLOTS: usize = 2;

pub const SALT: usize = 3;

pub const CLOCK: usize = 4;

pub const LAST: usize = 5;

pub const COUNT: usize = 6;

pub const BYTES: usize = 7;

pub const USED: usize = 8;

pub const FREED: usize = 9;

pub const SPARE: usize = 10;
// How many arrivals had each verdict: five words, in the order of `Verdict`.
pub const ENQUEUED: usize = 11;

pub const FIRST: usize = 16;

pub const OLD: usize = 17;

pub const LISTED: usize = 18;

pub const PROB: usize = 0;

pub const OLD_DELAY: usize = 1;

pub const ALLOWANCE: usize = 2;

pub const ACCUMULATED: usize = 3;

pub const AVERAGE: usize = 4;

pub const MEASURING: usize = 5;

pub const START: usize = 6;

pub const COUNTED: usize = 7;

pub const FLOW_COUNT: usize = 8;

pub const FLOW_BYTES: usize = 9;

pub const HEAD: usize = 10;

pub const TAIL: usize = 11;
