// A record and its 40 bytes.
ghost use Rattle.std.specs.Prelude.{◌≡◌, ◌+◌, ◌≤◌, length, take, drop};
ghost use Rattle.std.proofs.lemmas.List.Edits.{sets};
ghost use Rattle.log_codec.specs.Records.{encoded, decoded};

use crate::Record;
use crate::numbers::{get2, get4, get8, put2, put4, put8};

// The first 16 bytes: kind, flag, handle and clock.
fn put_head(r: Record, bytes: &mut [u8], at: usize)
    requires { at + 16 ≤ length bytes.old }
    ensures { bytes.new ≡ sets bytes.old at (take 16 (encoded r)) }
{
    bytes[at] = r.kind;
    bytes[at + 1] = r.ecn;
    put2(r.unused, bytes, at + 2);
    put4(r.handle, bytes, at + 4);
    put8(r.clock, bytes, at + 8);
}

// The other 24.
fn put_tail(r: Record, bytes: &mut [u8], at: usize)
    requires { at + 24 ≤ length bytes.old }
    ensures { bytes.new ≡ sets bytes.old at (drop 16 (encoded r)) }
{
    put4(r.size, bytes, at);
    put4(r.u, bytes, at + 4);
    put4(r.verdict, bytes, at + 8);
    put4(r.bytes, bytes, at + 12);
    put8(r.prob, bytes, at + 16);
}

pub fn put(r: Record, bytes: &mut [u8], at: usize)
    requires { at + 40 ≤ length bytes.old }
    ensures { bytes.new ≡ sets bytes.old at (encoded r) }
{
    put_head(r, bytes, at);
    put_tail(r, bytes, at + 16);
}

pub fn get(bytes: &[u8], at: usize) -> Record
    requires { at + 40 ≤ length bytes.now }
    ensures { result ≡ decoded bytes.now at }
{
    let kind = bytes[at];
    let ecn = bytes[at + 1];
    let unused = get2(bytes, at + 2);
    let handle = get4(bytes, at + 4);
    let clock = get8(bytes, at + 8);
    let size = get4(bytes, at + 16);
    let u = get4(bytes, at + 20);
    let verdict = get4(bytes, at + 24);
    let after = get4(bytes, at + 28);
    let prob = get8(bytes, at + 32);
    Record {
        kind,
        ecn,
        unused,
        handle,
        clock,
        size,
        u,
        verdict,
        bytes: after,
        prob,
    }
}
