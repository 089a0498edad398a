// A log read whole: which refusal it meets, if any.
ghost use Rattle.std.specs.Prelude.{◌≡◌, ◌+◌, ◌*◌, ◌≤◌, length};
ghost use Rattle.call_log.specs.Answers.{shape_of};
ghost use Rattle.call_log.specs.Layout.{records_from};
ghost use Rattle.call_log.specs.Whole.{any_faulty, read_whole, shape_in};

use crate::faults::faulty;
use crate::reading::settings;
use crate::{Refusal, Writer};

// Whether one of `count` records from `offset` on is faulty.
fn any_faulty(log: &[u8], offset: usize, count: usize) -> bool
    requires { offset + 40 * count ≤ length log.now }
    ensures { result ≡ any_faulty (records_from count log.now offset) }
{
    for i in 0..count {
        let fault = faulty(log_codec::get(log, offset + 40 * i));
        if fault {
            return true;
        }
    }
    false
}

// Offset and count of a log without faults: the state of a writer that goes on after it.
pub fn check(log: &[u8]) -> Result<Writer, Refusal>
    ensures { shape_of result ≡ shape_in (read_whole log.now) }
{
    settings(log)?;
    let n = log.len();
    let offset = log_codec::get4(log, n - 16);
    let count = log_codec::get4(log, n - 12);
    let fault = any_faulty(log, offset as usize, count as usize);
    if fault {
        return Err(Refusal::Fault);
    }
    Ok(Writer { offset, count })
}
