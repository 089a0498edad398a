// The record as words: those that a call is lent, and those that it writes back.
// Named functions: two values stand in the same words, and neither they nor the array are of this crate, so it cannot have their `From`.
ghost use Rattle.std.specs.Prelude.{◌≡◌};
ghost use Rattle.pie.specs.Verdicts.{place_of};
ghost use Rattle.fq_words.specs.Words.{common_of, lists_of};
ghost use Rattle.fq_words.specs.Written.{common_words};

use crate::layout::{
    BUFFER, BYTES, CLOCK, COUNT, ENQUEUED, FIRST, FREED, LAST, LISTED, OLD, SALT, SLOTS, SPARE,
    TARGET, USED,
};
use fq_state::{Common, Settings};
use pie::{Backlog, Verdict};
use pie_words::counts_at;
use schedule::Lists;
use store::Store;
use units::{Bytes, Micros};

// What all flows have in common.
pub fn decode(w: [u64; 19]) -> Common
    ensures { result ≡ common_of w }
{
    let settings = Settings {
        target: Micros(w[TARGET]),
        buffer: Bytes(w[BUFFER]),
        slots: w[SLOTS],
        salt: w[SALT],
    };
    let backlog = Backlog {
        count: w[COUNT],
        bytes: Bytes(w[BYTES]),
    };
    let store = Store {
        used: w[USED],
        freed: w[FREED],
        spare: w[SPARE],
    };
    let verdicts = counts_at(&w, ENQUEUED);
    Common {
        settings,
        clock: Micros(w[CLOCK]),
        last: Micros(w[LAST]),
        backlog,
        store,
        verdicts,
    }
}

// Where the lists stand.
pub fn decode_lists(w: [u64; 19]) -> Lists
    ensures { result ≡ lists_of w }
{
    Lists {
        first: w[FIRST] as usize,
        old: w[OLD] as usize,
        listed: w[LISTED] as usize,
    }
}

// The words of both.
pub fn encode(w: &mut [u64; 19], c: Common, l: Lists)
    ensures { w.new ≡ common_words c l }
{
    let [v0, v1, v2, v3, v4] = c.verdicts;
    *w = [
        c.settings.target.0,
        c.settings.buffer.0,
        c.settings.slots,
        c.settings.salt,
        c.clock.0,
        c.last.0,
        c.backlog.count,
        c.backlog.bytes.0,
        c.store.used,
        c.store.freed,
        c.store.spare,
        v0,
        v1,
        v2,
        v3,
        v4,
        l.first as u64,
        l.old as u64,
        l.listed as u64,
    ];
}

// The number of a verdict.
pub fn numbered(v: Verdict) -> u32
    ensures { result ≡ place_of v }
{
    v.place() as u32
}
