// A script of queue calls, fed in pieces of any length.
#![tactic(auto)]

use lines::Reader;
use ring::State;

mod answering;
mod feeding;

pub use feeding::{begin, feed, finish, is_over};

#[derive(Clone, Copy, PartialEq, Eq)]
pub enum Stage {
    // No line is answered.
    First,
    Running,
    // A bad line has ended the run.
    Ended,
}

#[derive(Clone, Copy)]
pub struct Session {
    pub stage: Stage,
    // The number of the next line.
    pub line: u64,
    pub state: State,
}

#[derive(Clone, Copy)]
pub struct Runner {
    pub session: Session,
    // What is read of the next line.
    pub reader: Reader,
}

// How many bytes of the input are taken, and how many of the output are written: two counts and no flag.
#[derive(Clone, Copy)]
pub struct Fed {
    pub runner: Runner,
    pub taken: usize,
    pub written: usize,
}
