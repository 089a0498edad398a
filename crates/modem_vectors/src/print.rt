// A line of output by its template.
fn say(rt: &impl Print, text: &[u8]) {
    let _ = rt.write_all(text);
}

fn say_byte(rt: &impl Print, byte: u8) {
    say(rt, &[byte]);
}

// The text from here up to this byte.
fn say_up_to(rt: &impl Print, input: &[u8], from: usize, end: u8) {
    for &byte in input.iter().skip(from) {
        if byte == end {
            return;
        }
        say_byte(rt, byte);
    }
}

fn activity(number: u64) -> &'static [u8] {
    match number {
        0 => b"inactive",
        1 => b"quiescent",
        2 => b"active",
        _ => b"",
    }
}

// By the place of its count.
fn verdict(place: u64) -> &'static [u8] {
    match place {
        0 => b"enqueued",
        1 => b"marked",
        2 => b"dropped-bytes",
        3 => b"dropped-slots",
        4 => b"dropped-early",
        _ => b"",
    }
}

// A letter's number after this mark: as it is, as an activity, or as a verdict.
fn put(rt: &impl Print, mark: u8, n: u64) {
    match mark {
        b'$' => {
            let _ = rt.print(n);
        }
        b'~' => say(rt, activity(n)),
        _ => say(rt, verdict(n)),
    }
}

// The line of the template from here on: small letters are what was given, capital letters what came.
pub(crate) fn show(
    rt: &impl Print,
    input: &[u8],
    from: usize,
    expected: usize,
    v: [u64; 32],
    came: [u64; 32],
) {
    let mut marked = None;
    for &byte in input.iter().skip(from) {
        if let Some(mark) = marked {
            let place = (byte % 32) as usize;
            let n = if byte < b'a' { came[place] } else { v[place] };
            put(rt, mark, n);
            marked = None;
            continue;
        }
        match byte {
            b'$' | b'~' | b'&' => marked = Some(byte),
            b'@' => say_up_to(rt, input, expected, b'}'),
            b'\n' => {
                say_byte(rt, byte);
                return;
            }
            _ => say_byte(rt, byte),
        }
    }
}
