// Where each word of the ring's record stands, as in struct obikuteru_state.
pub const TARGET: usize = 0;

pub const BUFFER: usize = 1;

pub const SLOTS: usize = 2;

pub const CLOCK: usize = 3;

pub const LAST: usize = 4;

// The ten words of the crate pie_words.
pub const PIE: usize = 5;

pub const PROB: usize = PIE;

pub const OLD: usize = PIE + pie_words::OLD;

pub const ALLOWANCE: usize = PIE + pie_words::ALLOWANCE;

pub const ACCUMULATED: usize = PIE + pie_words::ACCUMULATED;

pub const AVERAGE: usize = PIE + pie_words::AVERAGE;

pub const MEASURING: usize = PIE + pie_words::MEASURING;

pub const START: usize = PIE + pie_words::START;

pub const COUNTED: usize = PIE + pie_words::COUNTED;

pub const COUNT: usize = PIE + pie_words::COUNT;

pub const BYTES: usize = PIE + pie_words::BYTES;

pub const FIRST: usize = 15;

// The five counts, in the order of their verdicts.
pub const VERDICTS: usize = 16;

pub const ENQUEUED: usize = VERDICTS;

pub const MARKED: usize = VERDICTS + 1;

pub const DROPPED_BYTES: usize = VERDICTS + 2;

pub const DROPPED_SLOTS: usize = VERDICTS + 3;

pub const DROPPED_EARLY: usize = VERDICTS + 4;

pub const PROFILE: usize = 21;

pub const ACTIVE: usize = 22;
