// A script fed in pieces.
ghost use Rattle.std.specs.Prelude.{◌≡◌, cond, not, true, [], ◌+◌, ◌≤◌, ◌<◌, leb, length, take};
ghost use Rattle.script.specs.Feeding.{end_fed, has_ended, machine, room, start_runner, stops};
ghost use Rattle.script.specs.Turn.{Follows};

use crate::{Fed, Runner, Session, Stage};
use decimal::Output;
use lines::{Reader, scan};
use ring::State;
use units::{Bytes, Micros};

// Room that is enough for any output line.
const ROOM: usize = 128;

// A runner at the start of a script.
pub fn begin() -> Runner
    ensures { result ≡ start_runner }
{
    // Refused, so that the state is the all-zero record.
    let none = State::fresh(Micros(0), Bytes(0), 0, 0, Micros(0));
    let session = Session {
        stage: Stage::First,
        line: 1,
        state: none.state,
    };
    Runner {
        session,
        reader: Reader::begin(),
    }
}

// Whether a bad line has ended the run: what follows it need not be read.
pub fn is_over(runner: Runner) -> bool
    ensures { result ≡ has_ended runner.session.stage }
{
    runner.session.stage == Stage::Ended
}

// Whether no more is to be taken.
fn is_stopped(stage: Stage, taken: usize, input: usize, written: usize, output: usize) -> bool
    requires { written ≤ output }
    ensures { result ≡ stops taken input stage written output }
{
    let left = output - written;
    let ended = stage == Stage::Ended;
    (taken == input) | ended | (left < ROOM)
}

// Takes input until it is used up, the run has ended or the output has no room for another line.
// A turn takes a line, or the rest of the input where that holds no newline.
pub fn feed(
    runner: Runner,
    handles: &mut [u32],
    sizes: &mut [u32],
    input: &[u8],
    output: &mut [u8],
) -> Fed
    ensures follows { Follows (machine runner handles.old sizes.old [])
        input.now result handles.new sizes.new output.new }
    ensures taken_in_bounds { (result.taken ≤ length input.now) × (result.written ≤ length output.new) }
    ensures output_after { stops result.taken (length input.now) result.runner.session.stage
        result.written (length output.new) ≡ true }
{
    let mut session = runner.session;
    let mut reader = runner.reader;
    let mut taken = 0;
    let mut written = 0;
    // No `for`: a turn takes a whole line.
    while !is_stopped(session.stage, taken, input.len(), written, output.len()) {
        let scanned = scan(reader, input, taken);
        reader = scanned.reader;
        taken = scanned.at;
        if taken < input.len() {
            let read = script_command::finish(reader);
            let mut out = Output::at(output, written);
            session.answer(read, handles, sizes, &mut out);
            reader = Reader::begin();
            taken += 1;
            written = out.end();
        }
    }
    Fed {
        runner: Runner { session, reader },
        taken,
        written,
    }
}

// The end of the input: a last line that lacks its newline is answered, given room for its output.
pub fn finish(runner: Runner, handles: &mut [u32], sizes: &mut [u32], output: &mut [u8]) -> Fed
    ensures output_after { let before = machine runner handles.old sizes.old [] in
        machine result.runner handles.new sizes.new (take result.written output.new)
        ≡ cond (leb room (length output.old)) (end_fed before) before }
    ensures taken_value { (result.taken ≡ 0) × (result.written ≤ length output.new) }
{
    let none = Fed {
        runner,
        taken: 0,
        written: 0,
    };
    if output.len() < ROOM {
        return none;
    }
    if runner.reader.is_empty() {
        return none;
    }
    let read = script_command::finish(runner.reader);
    let mut session = runner.session;
    let mut out = Output::at(output, 0);
    session.answer(read, handles, sizes, &mut out);
    Fed {
        runner: Runner {
            session,
            reader: Reader::begin(),
        },
        taken: 0,
        written: out.end(),
    }
}
