// The worked numbers of docs/DOCSIS-PIE.md, part 7: W1 to W28, and the whole case. They stand in the file stdin, in the notation that is
// explained there; a line is printed for each, with what was expected and what came.
#![tactic(auto)]

ghost use Rattle.std.specs.Prelude.{◌≤◌, length};

mod example;
mod letters;
mod notation;
mod print;

use std::io::Read;

// Reads until the buffer is full or the input ends, and says how much came. A read that fails is the end. Each read but the last brings a
// byte, so that as many suffice as the buffer has.
fn read_full<R: Read>(from: &mut R, buffer: &mut [u8]) -> usize
    ensures { result ≤ length buffer.new }
{
    let mut filled = 0;
    for _ in 0..buffer.len() {
        let came = from.read(&mut buffer[filled..]).unwrap_or(0);
        if came == 0 {
            return filled;
        }
        filled += came;
    }
    filled
}

fn main(rt: HostRuntime) {
    let mut from = rt.stdin();
    let mut input = [0u8; 65536];
    let n = read_full(&mut from, &mut input);
    notation::run(&rt, &input[..n]);
}
