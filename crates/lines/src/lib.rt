// A line of a script, read byte by byte: a letter and up to seven numbers.
#![tactic(auto)]

mod push;
mod scanning;

pub use scanning::scan;

// What the reader has just read.
#[derive(Clone, Copy)]
pub enum Phase {
    // Nothing.
    Start,
    Letter,
    // A space.
    Gap,
    // Digits of a field.
    Digits,
    // Something that no command begins with.
    Spoiled,
}

#[derive(Clone, Copy)]
pub struct Reader {
    pub phase: Phase,
    pub letter: u8,
    // The fields before the one that is read, and the last six of them.
    pub count: u64,
    pub fields: [u64; 6],
    // The field that is read.
    pub value: u64,
}

// A reader and the place in the input that it has come to.
#[derive(Clone, Copy)]
pub struct Scanned {
    pub reader: Reader,
    pub at: usize,
}
