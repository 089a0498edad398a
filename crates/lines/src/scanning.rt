// Reading on to the end of a line.
ghost use Rattle.std.specs.Prelude.{◌≡◌, ◌+◌, ◌≤◌, length, drop};
ghost use Rattle.lines.specs.Scan.{Along, line_end, read_on};

use crate::{Phase, Reader, Scanned};

// Reads digits of a field, while their number is clear of 64 bits: `push` takes the rest.
fn read_digits(begun: Reader, input: &[u8], from: usize) -> Scanned
    requires { (from ≤ length input.now) × (begun.phase ≡ Phase.Digits) }
    ensures { Along input.now begun from result }
{
    let mut reader = begun;
    for at in from..input.len() {
        let byte = input[at];
        let clear = (b'0' <= byte) & (byte <= b'9') & (reader.value < u64::MAX / 10);
        if !clear {
            return Scanned { reader, at };
        }
        reader.value = 10 * reader.value + (byte - b'0') as u64;
    }
    Scanned {
        reader,
        at: input.len(),
    }
}

// Reads what follows a byte at once, if it is digits of the same field.
fn read_field(begun: Reader, input: &[u8], from: usize) -> Scanned
    requires { from ≤ length input.now }
    ensures { Along input.now begun from result }
{
    match begun.phase {
        Phase::Digits => read_digits(begun, input, from),
        Phase::Start | Phase::Letter | Phase::Gap | Phase::Spoiled => Scanned {
            reader: begun,
            at: from,
        },
    }
}

// Reads `input` from `from` on, up to a newline or to its end.
pub fn scan(begun: Reader, input: &[u8], from: usize) -> Scanned
    requires { from ≤ length input.now }
    ensures { (result.at ≡ from + line_end (drop from input.now))
        × (result.reader ≡ read_on begun (drop from input.now)) }
{
    let mut reader = begun;
    let mut at = from;
    // No `for`: a turn takes a byte and all digits behind it.
    while at < input.len() {
        let byte = input[at];
        if byte == b'\n' {
            return Scanned { reader, at };
        }
        let read = read_field(reader.push(byte), input, at + 1);
        reader = read.reader;
        at = read.at;
    }
    Scanned { reader, at }
}
