// The constants of docs/DOCSIS-PIE.md, part 1, as specs/Constants.antt has them.

// The target where none is given, in microseconds.
pub const DEFAULT_TARGET: u64 = 10_000;

// The tick period, in microseconds.
pub const PERIOD: u64 = 16_000;

// The full burst allowance, in microseconds.
pub const FULL_ALLOWANCE: u64 = 142_000;

// The reset timeout, in microseconds.
pub const RESET_TIMEOUT: u64 = 1_000_000;

// Below the low delay the probability decays, above the high one it ramps up, in microseconds.
pub const LOW_DELAY: u64 = 5_000;

pub const HIGH_DELAY: u64 = 200_000;

// The mean packet, in bytes.
pub const MEAN_PACKET: u64 = 1_024;

// A small queue: two mean packets.
pub const SMALL_QUEUE: u64 = 2_048;

// 13.6: the greatest stored probability.
pub const MOST_PROB: u64 = 58_411_555_225;

// 0.85: the greatest scaled probability.
pub const LOW: u64 = 3_650_722_201;

// 8.5: where the accumulated probability stops.
pub const HIGH: u64 = 36_507_222_016;

// 0.02: the greatest step from one tenth on, and what a high delay adds.
pub const CAP: i64 = 85_899_345;
