// The notation of the file stdin, read byte by byte.
use crate::letters::*;
use crate::{example, print};
use modem_flow::State;

#[derive(Clone, Copy)]
pub(crate) struct Sheet {
    // The numbers by letter, and those that each example starts from.
    pub v: [u64; 32],
    pub base: [u64; 32],
    pub letter: u8,
    // Where the template begins, and what is expected.
    pub text: usize,
    pub expected: usize,
    // The byte that ends a text which is passed over.
    pub end: Option<u8>,
}

fn blank() -> Sheet {
    Sheet {
        v: [0; 32],
        base: [0; 32],
        letter: 0,
        text: 0,
        expected: 0,
        end: None,
    }
}

// A letter begins a number, a digit goes on with it.
fn number(v: [u64; 32], letter: u8, byte: u8) -> [u64; 32] {
    let mut w = v;
    match byte {
        b'0'..=b'9' => {
            let place = (letter % 32) as usize;
            w[place] = w[place] % 1_000_000_000_000_000_000 * 10 + (byte - b'0') as u64;
        }
        b'A'..=b'z' => {
            let place = (byte % 32) as usize;
            w[place] = 0;
        }
        _ => {}
    }
    w
}

// A byte of a text that is passed over.
fn pass(s: Sheet, byte: u8) -> Sheet {
    let end = s.end.filter(|end| *end != byte);
    Sheet { end, ..s }
}

// A byte that makes no call, before this place.
fn read(s: Sheet, byte: u8, next: usize) -> Sheet {
    match byte {
        b'#' => Sheet {
            end: Some(b'\n'),
            ..s
        },
        b':' => Sheet {
            end: Some(b'\n'),
            text: next,
            ..s
        },
        b'{' => Sheet {
            end: Some(b'}'),
            expected: next,
            ..s
        },
        b'=' => {
            let base = s.v;
            Sheet { base, ..s }
        }
        _ => {
            let letter = if byte < b'A' { s.letter } else { byte };
            let before = s.v;
            let v = number(before, s.letter, byte);
            Sheet { v, letter, ..s }
        }
    }
}

// A table of counts: the flow's row begins with g, all else is x.
fn filled(v: [u64; 32]) -> [[u64; 5]; 16] {
    let mut counts = [[v[OTHERS]; 5]; 16];
    counts[(v[FLOW] % 16) as usize] = [v[ROW], 0, 0, 0, 0];
    counts
}

pub(crate) fn run(rt: &impl Print, input: &[u8]) {
    let mut handles = [0u32; 64];
    let mut sizes = [0u32; 64];
    let mut counts = [[0u64; 5]; 16];
    let mut s = blank();
    let mut state = State::zero();
    let mut came = [0u64; 32];
    for (i, &byte) in input.iter().enumerate() {
        let v = s.v;
        if s.end.is_some() {
            s = pass(s, byte);
            continue;
        }
        match byte {
            b'%' => counts = filled(v),
            b'*' => state = example::state(v),
            b'?' => print::show(rt, input, s.text, s.expected, v, came),
            b'!' => {
                let returned = example::call(&mut state, v, counts, &mut handles, &mut sizes);
                let back = returned.counts;
                counts = back;
                let row = counts[(v[FLOW] % 16) as usize];
                came = example::came(state, returned.answer, row);
            }
            b'.' => {
                let v = s.base;
                s = Sheet { v, ..s };
            }
            _ => s = read(s, byte, i + 1),
        }
    }
}
