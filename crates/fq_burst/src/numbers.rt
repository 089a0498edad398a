// Numbers of calls and answers.
ghost use Rattle.std.specs.Prelude.{◌≡◌, cond, ltb, ◌+◌, ◌*◌, ◌≤◌};
ghost use Rattle.fq_burst.specs.Calls.{key_of};

use bursts::REFUSED_CALL;
use refusals::{Refusal, refused};

// The word of a departure's answer.
pub(crate) fn word(code: u32, flow: u32, size: u32, handle: u32) -> u64
    requires { (code ≤ 255) × (flow ≤ 255) × (size ≤ 65535) }
    ensures { result ≡ code + 256 * flow + 65536 * size + 4294967296 * handle }
{
    code as u64 + 256 * (flow as u64) + 65_536 * (size as u64) + 4_294_967_296 * (handle as u64)
}

// A key from its four numbers.
pub(crate) fn key_of(a: u32, b: u32, c: u32, d: u32) -> [u8; 13]
    ensures { result ≡ key_of a b c d }
{
    let [a0, a1, a2, a3] = a.to_le_bytes();
    let [b0, b1, b2, b3] = b.to_le_bytes();
    let [c0, c1, c2, c3] = c.to_le_bytes();
    let [last, _, _, _] = d.to_le_bytes();
    [a0, a1, a2, a3, b0, b1, b2, b3, c0, c1, c2, c3, last]
}

// The code of a call of this kind on a malformed record.
pub(crate) fn malformed(kind: u32) -> u32
    ensures { result ≡ cond (ltb kind 4) 102 120 }
{
    if kind < 4 {
        refused(Refusal::Malformed)
    } else {
        REFUSED_CALL
    }
}
