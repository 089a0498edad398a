// The reader: a small struct that holds the log and its place.
ghost use Rattle.std.specs.Prelude.{◌≡◌};
ghost use Rattle.call_log.specs.Answers.{turn_of};
ghost use Rattle.call_log.specs.Reader.{moved_on, next_of, started};

use crate::reading::{place_after, read_at};
use crate::{Reader, Refusal};
use log_codec::Record;

pub fn start<'a>(log: &'a [u8]) -> Reader<'a>
    ensures { result ≡ started log.entry }
{
    Reader { log, place: 0 }
}

// What stands at the reader's place.
pub fn next<'a>(r: Reader<'a>) -> Result<Option<(Record, u64)>, Refusal>
    ensures { turn_of result ≡ next_of r.entry }
{
    read_at(r.log, r.place)
}

// The reader after that: at the next place where a record was handed out, else where it was.
pub fn moved<'a>(r: Reader<'a>) -> Reader<'a>
    ensures { result ≡ moved_on r.entry }
{
    let place = place_after(r.log, r.place);
    Reader { log: r.log, place }
}
