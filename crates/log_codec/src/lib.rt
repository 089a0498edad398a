// A log's settings and records as little-endian bytes, in lent bytes. Each stands at a place `at`, as the definitions' `at` has it.
#![tactic(auto)]

mod headers;
mod numbers;
mod records;

pub use headers::{get_header, put_header};
pub use numbers::{get4, get8, put4, put8};
pub use records::{get, put};

// The settings, with the start clock.
#[derive(Clone, Copy, PartialEq, Eq)]
pub struct Header {
    pub target: u64,
    pub buffer: u32,
    pub slots: u32,
    pub clock: u64,
    pub profile: u8,
    // Seven bytes.
    pub unused: u64,
}

// One accepted call, its verdict, and bytes and probability after it.
#[derive(Clone, Copy, PartialEq, Eq)]
pub struct Record {
    // The script's letter. Any byte: a record may hold one that is no call's, and `call_log::faulty` refuses it.
    pub kind: u8,
    pub ecn: u8,
    pub unused: u16,
    pub handle: u32,
    pub clock: u64,
    pub size: u32,
    pub u: u32,
    // Of a departure its handle.
    pub verdict: u32,
    pub bytes: u32,
    pub prob: u64,
}
