// The tests of settings and of one record. They are joined without jumps, which is faster than early returns (docs/changes/Q-1.md).
ghost use Rattle.std.specs.Prelude.{◌≡◌};
ghost use Rattle.call_log.specs.Faults.{faulty as faulty_by, header_refused};

use log_codec::{Header, Record};
use pie::LATEST;
use ring::Settings;
use units::{Bytes, Micros, Prob};

pub fn header_refused(h: Header) -> bool
    ensures { result ≡ header_refused h }
{
    let settings = Settings {
        target: Micros(h.target),
        buffer: Bytes(h.buffer as u64),
        slots: h.slots as u64,
        profile: h.profile as u64,
    };
    !(settings.in_range() & (h.clock <= LATEST)) | !(h.unused == 0)
}

pub fn faulty(r: Record) -> bool
    ensures { result ≡ faulty_by r }
{
    let a = r.kind == b'a';
    let d = r.kind == b'd';
    let t = r.kind == b't';
    let arrival = a & (r.ecn <= 1) & (1 <= r.size) & (r.size <= 65_535) & (r.verdict <= 4);
    let other = (r.ecn == 0)
        & (r.handle == 0)
        & (r.size == 0)
        & (r.u == 0)
        & (d | (t & (r.verdict == 0)));
    !((arrival | other)
        & (r.unused == 0)
        & (r.clock <= LATEST)
        & (r.bytes <= 16_777_216)
        & (r.prob <= Prob::WHOLE.0))
}
