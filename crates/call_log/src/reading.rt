// What stands in a log, over a plain slice and a place.
ghost use Rattle.std.specs.Prelude.{◌≡◌};
ghost use Rattle.call_log.specs.Answers.{header_of, turn_of};
ghost use Rattle.call_log.specs.Reader.{note_of, note_part, part_of, place_after, read_at, settings_of, trailer_refused};

use crate::Refusal;
use crate::faults::{faulty, header_refused};
use log_codec::{Header, Record};

pub fn trailer_refused(log: &[u8]) -> bool
    ensures { result ≡ trailer_refused log.now }
{
    let n = log.len();
    let short = n < 48;
    if short {
        return true;
    }
    let offset = log_codec::get4(log, n - 16) as u64;
    let count = log_codec::get4(log, n - 12) as u64;
    let size = log_codec::get4(log, n - 8);
    let letters = log_codec::get4(log, n - 4);
    !((32 <= offset)
        & (offset <= 4_128)
        & (size == 40)
        & (count <= 100_000)
        & (letters == 1_196_379_217)
        & (n as u64 == offset + 40 * count + 16))
}

pub fn settings(log: &[u8]) -> Result<Header, Refusal>
    ensures { header_of result ≡ settings_of log.now }
{
    let bad = trailer_refused(log);
    if bad {
        return Err(Refusal::Trailer);
    }
    let h = log_codec::get_header(log, 0);
    let wrong = header_refused(h);
    if wrong {
        return Err(Refusal::Settings);
    }
    Ok(h)
}

// The record of this number and the place after it; none at the end.
pub fn read_at(log: &[u8], place: u64) -> Result<Option<(Record, u64)>, Refusal>
    ensures { turn_of result ≡ read_at log.now place }
{
    settings(log)?;
    let n = log.len();
    let offset = log_codec::get4(log, n - 16) as u64;
    let count = log_codec::get4(log, n - 12) as u64;
    let past = count <= place;
    if past {
        return Ok(None);
    }
    let record = log_codec::get(log, (offset + 40 * place) as usize);
    let fault = faulty(record);
    if fault {
        return Err(Refusal::Fault);
    }
    Ok(Some((record, place + 1)))
}

// The place after what stands at a place: the same where no record was handed out.
pub fn place_after(log: &[u8], place: u64) -> u64
    ensures { result ≡ place_after (read_at log.now place) place }
{
    match read_at(log, place) {
        Ok(Some((_, next))) => next,
        _ => place,
    }
}

// The note where it stands in the log. No Result: `note_part` names an empty part where the log is refused, as `settings` says.
pub fn note<'a>(log: &'a [u8]) -> &'a [u8]
    ensures { part_of result ≡ note_part log.entry (note_of log.now) }
{
    match settings(log) {
        Ok(_) => {
            let offset = log_codec::get4(log, log.len() - 16) as usize;
            &log[32..offset]
        }
        Err(_) => &log[0..0],
    }
}
