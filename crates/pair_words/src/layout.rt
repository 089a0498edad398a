// Where each word of the records stands, as in struct obikuteru_shared and struct obikuteru_pair_queue.

// Of the shared record.
pub const SLOTS: usize = 0;

pub const INTERCOM: usize = 1;

pub const PASSENGERS: usize = 2;

pub const USED: usize = 3;

pub const FREED: usize = 4;

pub const SPARE: usize = 5;

// Of a queue's.
pub const TARGET: usize = 0;

pub const BUFFER: usize = 1;

pub const CLOCK: usize = 2;

pub const LAST: usize = 3;

// The ten words of the crate pie_words.
pub const PIE: usize = 4;

pub const ACCUMULATED: usize = PIE + pie_words::ACCUMULATED;

pub const COUNT: usize = PIE + pie_words::COUNT;

pub const BYTES: usize = PIE + pie_words::BYTES;

pub const HEAD: usize = 14;

pub const TAIL: usize = 15;

// The five counts, in the order of their verdicts.
pub const VERDICTS: usize = 16;

pub const ENQUEUED: usize = VERDICTS;

pub const MARKED: usize = VERDICTS + 1;

pub const DROPPED_BYTES: usize = VERDICTS + 2;

pub const DROPPED_SLOTS: usize = VERDICTS + 3;

pub const DROPPED_EARLY: usize = VERDICTS + 4;
