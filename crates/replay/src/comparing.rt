// A record held against what the rules give.
ghost use Rattle.std.specs.Prelude.{◌≡◌, ◌<◌, IfErr};
ghost use Rattle.refusals.specs.Rows.{first_refusal};
ghost use Rattle.replay.specs.Agreement.{disagreements};
ghost use Rattle.replay.specs.Told.{field_number, refusal_told, verdict_told};

use crate::Field;
use log_codec::Record;

// The first field that disagrees with a call by the rules, and with probability and bytes after it.
pub(crate) fn compare(r: Record, c: Result<u32, u32>, prob: u64, bytes: u64) -> Option<Field>
    requires { IfErr c (λ n. 0 < n) }
    ensures { field_number result ≡ first_refusal (disagreements r (refusal_told c) (verdict_told c) prob bytes) }
{
    match c {
        Ok(verdict) => {
            let other_verdict = !(r.verdict == verdict);
            if other_verdict {
                return Some(Field::Verdict);
            }
        }
        Err(_) => return Some(Field::Verdict),
    }
    let other_prob = !(r.prob == prob);
    if other_prob {
        return Some(Field::Probability);
    }
    let other_bytes = !(r.bytes as u64 == bytes);
    if other_bytes {
        return Some(Field::Bytes);
    }
    None
}
