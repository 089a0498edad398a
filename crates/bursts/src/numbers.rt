// Numbers of calls and answers.
ghost use Rattle.std.specs.Prelude.{◌≡◌, ◌≤◌};
ghost use Rattle.bursts.specs.Numbers.{clock_of, word_of};

// The code of a call whose kind is unknown, and of a burst whose lengths do not fit: 100 and 20, which is no number of a `Refusal`.
pub const REFUSED_CALL: u32 = 120;

pub fn wide(x: u32) -> u64
    ensures { result ≡ x }
{
    x as u64
}

// A clock from its halves.
pub fn clock_of(low: u32, high: u32) -> u64
    ensures { result ≡ clock_of low high }
{
    low as u64 + 4_294_967_296 * (high as u64)
}

// The word of an answer.
pub fn word(code: u32, size: u32, handle: u32) -> u64
    requires { (code ≤ 65535) × (size ≤ 65535) }
    ensures { result ≡ word_of code size handle }
{
    code as u64 + 65_536 * (size as u64) + 4_294_967_296 * (handle as u64)
}
