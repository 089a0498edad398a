// Numbers as little-endian bytes, by their width. The named ones keep their clauses in `bytes_of` and `number_of`, over `put` and `get`.
ghost use Rattle.std.specs.Prelude.{◌≡◌, ◌+◌, ◌≤◌, length, take, drop};
ghost use Rattle.std.proofs.lemmas.List.Edits.{sets};
ghost use Rattle.log_codec.specs.Numbers.{bytes_of, number_of};

// A number's own bytes, from `at` on.
fn put<const N: usize>(own: [u8; N], bytes: &mut [u8], at: usize)
    requires { at + N ≤ length bytes.old }
    ensures { bytes.new ≡ sets bytes.old at own.entry }
{
    bytes[at..at + N].copy_from_slice(&own);
}

// So many bytes, from `at` on.
fn get<const N: usize>(bytes: &[u8], at: usize) -> [u8; N]
    requires { at + N ≤ length bytes.now }
    ensures { result ≡ take N (drop at bytes.now) }
{
    <[u8; N]>::try_from(&bytes[at..at + N]).unwrap()
}

pub(crate) fn put2(x: u16, bytes: &mut [u8], at: usize)
    requires { at + 2 ≤ length bytes.old }
    ensures { bytes.new ≡ sets bytes.old at (bytes_of 2 x) }
{
    put::<2>(x.to_le_bytes(), bytes, at);
}

pub fn put4(x: u32, bytes: &mut [u8], at: usize)
    requires { at + 4 ≤ length bytes.old }
    ensures { bytes.new ≡ sets bytes.old at (bytes_of 4 x) }
{
    put::<4>(x.to_le_bytes(), bytes, at);
}

pub fn put8(x: u64, bytes: &mut [u8], at: usize)
    requires { at + 8 ≤ length bytes.old }
    ensures { bytes.new ≡ sets bytes.old at (bytes_of 8 x) }
{
    put::<8>(x.to_le_bytes(), bytes, at);
}

pub(crate) fn get2(bytes: &[u8], at: usize) -> u16
    requires { at + 2 ≤ length bytes.now }
    ensures { result ≡ number_of (take 2 (drop at bytes.now)) }
{
    u16::from_le_bytes(get::<2>(bytes, at))
}

pub fn get4(bytes: &[u8], at: usize) -> u32
    requires { at + 4 ≤ length bytes.now }
    ensures { result ≡ number_of (take 4 (drop at bytes.now)) }
{
    u32::from_le_bytes(get::<4>(bytes, at))
}

pub fn get8(bytes: &[u8], at: usize) -> u64
    requires { at + 8 ≤ length bytes.now }
    ensures { result ≡ number_of (take 8 (drop at bytes.now)) }
{
    u64::from_le_bytes(get::<8>(bytes, at))
}
