// What the longer of two logs has left.
ghost use Rattle.std.specs.Prelude.{◌≡◌, ◌+◌, ◌*◌, ◌≤◌, length};
ghost use Rattle.call_log.specs.Reader.{part_of};
ghost use Rattle.compare.specs.Remaining.{last_of, remaining_of};

use crate::Compared;
use crate::comparing::compare;

// The last records of a log, so many, without the trailer.
fn last<'a>(log: &'a [u8], records: u64) -> &'a [u8]
    requires { 40 * records + 16 ≤ length log.now }
    ensures { part_of result ≡ last_of log.entry records }
{
    let to = log.len() - 16;
    let from = to - 40 * (records as usize);
    &log[from..to]
}

// The longer log's remaining records where one is a proper beginning of the other, in the caller's bytes; else an empty part, as `remaining_of` names it.
pub fn remaining<'a>(first: &'a [u8], second: &'a [u8]) -> &'a [u8]
    ensures { part_of result ≡ remaining_of first.entry second.entry }
{
    match compare(first, second) {
        Compared::FirstEnds(_, records) => last(second, records),
        Compared::SecondEnds(_, records) => last(first, records),
        _ => &first[0..0],
    }
}
