// The constants of document 01, 'Units and ends of range', as specs/Constants.antt has them.

// The latest clock, in microseconds.
pub const LATEST: u64 = 281_474_976_710_656;

// The most that the five verdict counts may sum to.
pub const MOST_VERDICTS: u64 = 281_474_976_710_656;

// The longest delay and the longest rate sample, in microseconds.
pub const LONGEST: u64 = 10_000_000;

// The largest packet, in bytes.
pub const LARGEST: u64 = 65_535;

// The tick period, in microseconds.
pub const PERIOD: u64 = 15_000;

// The full burst allowance, in microseconds.
pub const FULL_ALLOWANCE: u64 = 150_000;

// The rate threshold: how many bytes a rate sample counts.
pub const THRESHOLD: u64 = 16_384;

// The accumulated probability stays below this: 8.5.
pub const MOST_ACCUMULATED: u64 = 36_507_222_016;

// The most that a step of the calm profile adds where p is at least one tenth: 0.02.
pub const MOST_CALM_STEP: i64 = 85_899_345;

// A small queue: two mean packets of 1,500 bytes.
pub const SMALL_QUEUE: u64 = 3_000;
