// What a call changes of the words of what all flows have in common.
ghost use Rattle.std.specs.Prelude.{◌≡◌, ◌≤◌};
ghost use Rattle.pie.specs.Constants.{most_verdicts};
ghost use Rattle.pie.specs.Verdicts.{raised, total};
ghost use Rattle.fq_words.specs.Words.{common_of, lists_of};
ghost use Rattle.fq_words.specs.Written.{common_words};

use fq_state::Common;
use fq_words::{BYTES, CLOCK, COUNT, ENQUEUED, FIRST, FREED, LAST, LISTED, OLD, SPARE, USED};
use pie::Verdict;
use schedule::Lists;

// After an arrival with this verdict.
pub(crate) fn write_arrived(w: &mut [u64; 19], c: Common, l: Lists, v: Verdict)
    requires settings_value { (c.settings ≡ (common_of w.old).settings) × (c.last ≡ (common_of w.old).last)
        × (c.verdicts ≡ raised (common_of w.old).verdicts v) × (total (common_of w.old).verdicts ≤ most_verdicts) }
    requires first_value { (l.first ≡ (lists_of w.old).first) × (l.old ≡ (lists_of w.old).old) }
    ensures { w.new ≡ common_words c l }
{
    w[CLOCK] = c.clock.0;
    w[COUNT] = c.backlog.count;
    w[BYTES] = c.backlog.bytes.0;
    w[USED] = c.store.used;
    w[FREED] = c.store.freed;
    w[SPARE] = c.store.spare;
    w[LISTED] = l.listed as u64;
    let at = ENQUEUED + v.place();
    w[at] = w[at] + 1;
}

// After a departure.
pub(crate) fn write_left(w: &mut [u64; 19], c: Common, l: Lists)
    requires { (c.settings ≡ (common_of w.old).settings) × (c.last ≡ (common_of w.old).last)
        × (c.store.used ≡ (common_of w.old).store.used) × (c.verdicts ≡ (common_of w.old).verdicts) }
    ensures { w.new ≡ common_words c l }
{
    w[CLOCK] = c.clock.0;
    w[COUNT] = c.backlog.count;
    w[BYTES] = c.backlog.bytes.0;
    w[FREED] = c.store.freed;
    w[SPARE] = c.store.spare;
    w[FIRST] = l.first as u64;
    w[OLD] = l.old as u64;
    w[LISTED] = l.listed as u64;
}

// After a tick.
pub(crate) fn write_ticked(w: &mut [u64; 19], c: Common)
    requires { (c.settings ≡ (common_of w.old).settings) × (c.backlog ≡ (common_of w.old).backlog)
        × (c.store ≡ (common_of w.old).store) × (c.verdicts ≡ (common_of w.old).verdicts) }
    ensures { w.new ≡ common_words c (lists_of w.old) }
{
    w[CLOCK] = c.clock.0;
    w[LAST] = c.last.0;
}
