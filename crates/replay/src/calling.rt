// The call that a record holds, made by the rules: its verdict, or the number of its refusal, which the words have.
ghost use Rattle.std.specs.Prelude.{◌≡◌, cond, ◌-◌, ◌<◌, ◌≤◌, leb, Ok, Err, IfErr};
ghost use Rattle.ring_words.specs.Lent.{leaves, lent, reply_to};
ghost use Rattle.ring_steps.specs.Fitting.{Ready};
ghost use Rattle.replay.specs.Agreement.{refusal_in, request_of, verdict_in};
ghost use Rattle.replay.specs.Told.{refusal_told, verdict_told};

use log_codec::Record;
use ring_steps::{arrive, depart, tick};

// What the code of an answer says: 100 and the number of a refusal, or else the verdict.
fn by_code(code: u64, verdict: u64) -> Result<u32, u32>
    requires { (code ≤ 65535) × (verdict ≤ 4294967295) }
    ensures { result ≡ cond (leb 100 code) (Err (code - 100)) (Ok verdict) }
{
    let refused = 100 <= code;
    if refused {
        return Err((code - 100) as u32);
    }
    Ok(verdict as u32)
}

pub(crate) fn call(
    w: &mut [u64; 23],
    r: Record,
    handles: &mut [u32],
    sizes: &mut [u32],
) -> Result<u32, u32>
    requires { Ready (lent w.old handles.old sizes.old) 1 }
    ensures { let q = lent w.old handles.old sizes.old in
        let a = reply_to q (request_of r) in
        (refusal_told result ≡ refusal_in a.answer)
        × (verdict_told result ≡ verdict_in a.answer)
        × (lent w.new handles.new sizes.new ≡ leaves q (request_of r))
        × IfErr result (λ n. 0 < n) }
{
    let arrives = r.kind == b'a';
    if arrives {
        let code = arrive(
            w,
            handles,
            sizes,
            r.clock,
            r.handle,
            r.size,
            r.ecn == 1,
            r.u,
        );
        return by_code(code, code);
    }
    let departs = r.kind == b'd';
    if departs {
        let word = depart(w, handles, sizes, r.clock);
        return by_code(word % 65_536, word / 4_294_967_296);
    }
    let code = tick(w, r.clock);
    by_code(code, 0)
}
