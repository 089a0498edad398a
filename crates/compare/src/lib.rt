// Two logs compared: which line differs, or what the longer has left.
#![tactic(auto)]

ghost use Rattle.std.specs.Prelude.{◌≡◌, ◌+◌, ◌*◌, ◌-◌, ◌≤◌};
ghost use Rattle.compare.specs.Compare.{compare};
ghost use Rattle.compare.specs.Codes.{code_of, words_of};

use call_log::Refusal;

mod comparing;
mod longer;

pub use comparing::compare;
pub use longer::remaining;

// What `compare` finds, case by case as `Comparison` of its definition: a refusal of either log is one of them.
#[derive(Clone, Copy, PartialEq, Eq)]
pub enum Compared {
    RefusedFirst(Refusal),
    RefusedSecond(Refusal),
    SettingsDiffer,
    NotesDiffer,
    // The number of the first record that differs.
    RecordDiffers(u64),
    // How many records both have, and how many the longer has left.
    FirstEnds(u64, u64),
    SecondEnds(u64, u64),
    Equal(u64),
}

// Where the last records of a log begin, so many, before its trailer.
fn last_from(length: u64, records: u64) -> u64
    requires { 40 * records + 16 ≤ length }
    ensures { result ≡ length - 16 - 40 * records }
{
    length - 16 - 40 * records
}

// The C entry (include/obikuteru.h): what was found is written as four words.
#[unsafe(no_mangle)]
pub extern "C" fn obikuteru_compare(first: &[u8], second: &[u8], words: &mut [u64; 4]) -> u32
    ensures { let a = compare first.now second.now in
        (result ≡ code_of a) × (words.new ≡ words_of first.now second.now a) }
{
    let found = compare(first, second);
    match found {
        Compared::RefusedFirst(refusal) => {
            *words = [1, 0, 0, 0];
            refusal.code()
        }
        Compared::RefusedSecond(refusal) => {
            *words = [2, 0, 0, 0];
            refusal.code()
        }
        Compared::SettingsDiffer => {
            *words = [0, 0, 0, 0];
            1
        }
        Compared::NotesDiffer => {
            *words = [0, 0, 0, 0];
            2
        }
        Compared::RecordDiffers(number) => {
            *words = [0, number, 0, 0];
            3
        }
        Compared::FirstEnds(shared, left) => {
            *words = [2, shared, last_from(second.len() as u64, left), 40 * left];
            4
        }
        Compared::SecondEnds(shared, left) => {
            *words = [1, shared, last_from(first.len() as u64, left), 40 * left];
            5
        }
        Compared::Equal(records) => {
            *words = [0, records, 0, 0];
            0
        }
    }
}
