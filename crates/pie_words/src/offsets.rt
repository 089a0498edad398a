// Where the words of a queue under PIE stand, from its first one on, which is the probability.
pub const OLD: usize = 1;

pub const ALLOWANCE: usize = 2;

pub const ACCUMULATED: usize = 3;

pub const AVERAGE: usize = 4;

pub const MEASURING: usize = 5;

pub const START: usize = 6;

pub const COUNTED: usize = 7;

pub const COUNT: usize = 8;

pub const BYTES: usize = 9;
