// A log's settings and their 32 bytes.
ghost use Rattle.std.specs.Prelude.{◌≡◌, ◌+◌, ◌≤◌, length};
ghost use Rattle.std.proofs.lemmas.List.Edits.{sets};
ghost use Rattle.log_codec.specs.Headers.{encoded_header, decoded_header};

use crate::Header;
use crate::numbers::{get4, get8, put4, put8};

pub fn put_header(h: Header, bytes: &mut [u8], at: usize)
    requires { at + 32 ≤ length bytes.old }
    ensures { bytes.new ≡ sets bytes.old at (encoded_header h) }
{
    put8(h.target, bytes, at);
    put4(h.buffer, bytes, at + 8);
    put4(h.slots, bytes, at + 12);
    put8(h.clock, bytes, at + 16);
    // One number of eight bytes: the layout has the profile in one byte and `unused` in the seven after it.
    put8(
        h.profile as u64 + 256 * (h.unused % 72_057_594_037_927_936),
        bytes,
        at + 24,
    );
}

pub fn get_header(bytes: &[u8], at: usize) -> Header
    requires { at + 32 ≤ length bytes.now }
    ensures { result ≡ decoded_header bytes.now at }
{
    let target = get8(bytes, at);
    let buffer = get4(bytes, at + 8);
    let slots = get4(bytes, at + 12);
    let clock = get8(bytes, at + 16);
    let profile = bytes[at + 24];
    let unused = get8(bytes, at + 24) / 256;
    Header {
        target,
        buffer,
        slots,
        clock,
        profile,
        unused,
    }
}
