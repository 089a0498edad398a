// Where each word of a flow's record stands, as in struct obikuteru_modem_state.
pub const TARGET: usize = 0;

pub const BUFFER: usize = 1;

pub const SLOTS: usize = 2;

pub const PEAK: usize = 3;

pub const SUSTAINED: usize = 4;

pub const CLOCK: usize = 5;

pub const LAST: usize = 6;

pub const PROB: usize = 7;

pub const ACCUMULATED: usize = 8;

pub const OLD: usize = 9;

pub const ALLOWANCE: usize = 10;

pub const RESET: usize = 11;

pub const ACTIVITY: usize = 12;

pub const FIRST: usize = 13;

pub const COUNT: usize = 14;

pub const BYTES: usize = 15;
