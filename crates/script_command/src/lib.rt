// The command that a line of a script is, for the ring queue.
#![tactic(auto)]

ghost use Rattle.std.specs.Prelude.{◌≡◌, Some, None, cond, leb, eqb};
ghost use Rattle.lines.specs.Forms as forms;
ghost use Rattle.lines.specs.Reader.{numbers_in};
ghost use Rattle.script_command.specs.Forms.{command_of};
ghost use Rattle.script_command.specs.Reader.{finished};

use lines::{Phase, Reader};

#[derive(Clone, Copy)]
pub enum Command {
    Configure {
        target: u32,
        buffer: u32,
        slots: u32,
    },
    Arrival {
        clock: u64,
        handle: u32,
        size: u32,
        ecn: bool,
        u: u32,
    },
    Departure {
        clock: u64,
    },
    Tick {
        clock: u64,
    },
}

// A number of 32 bits.
fn word(number: u64) -> Option<u32>
    ensures { result ≡ cond (leb number forms.word) (Some number) None }
{
    u32::try_from(number).ok()
}

// c target buffer slots
#[tactic(auto, unfolding(crate::specs::Forms::command_of))]
fn configure(reader: Reader) -> Option<Command>
    ensures { result ≡ command_of 99 (numbers_in reader) }
{
    if reader.count != 2 || reader.value > 4096 {
        return None;
    }
    let [_, _, _, _, target, buffer] = reader.fields;
    Some(Command::Configure {
        target: word(target)?,
        buffer: word(buffer)?,
        slots: reader.value as u32,
    })
}

// a clock handle size ecn u
#[tactic(auto, unfolding(crate::specs::Forms::command_of))]
fn arrival(reader: Reader) -> Option<Command>
    ensures { result ≡ command_of 97 (numbers_in reader) }
{
    let [_, _, clock, handle, size, ecn] = reader.fields;
    if reader.count != 4 || ecn > 1 {
        return None;
    }
    Some(Command::Arrival {
        clock,
        handle: word(handle)?,
        size: word(size)?,
        ecn: ecn == 1,
        u: word(reader.value)?,
    })
}

// d clock, or t clock
fn clock(reader: Reader) -> Option<u64>
    ensures { result ≡ cond (eqb reader.count 0) (Some reader.value) None }
{
    (reader.count == 0).then_some(reader.value)
}

#[tactic(auto, unfolding(crate::specs::Forms::command_of))]
fn by_letter(reader: Reader) -> Option<Command>
    ensures { result ≡ command_of reader.letter (numbers_in reader) }
{
    match reader.letter {
        b'a' => arrival(reader),
        b'd' => Some(Command::Departure {
            clock: clock(reader)?,
        }),
        b't' => Some(Command::Tick {
            clock: clock(reader)?,
        }),
        b'c' => configure(reader),
        _ => None,
    }
}

// The command that the reader has read, at the end of a line.
#[tactic(auto, unfolding(crate::specs::Reader::finished, lines::specs::Reader::command_read))]
pub fn finish(reader: Reader) -> Option<Command>
    ensures { result ≡ finished reader }
{
    match reader.phase {
        Phase::Digits => by_letter(reader),
        Phase::Start | Phase::Letter | Phase::Gap | Phase::Spoiled => None,
    }
}
