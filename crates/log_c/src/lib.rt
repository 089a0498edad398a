// The C interface of the log (include/obikuteru.h). Settings and records are lent as their bytes, the writer's state as two words.
#![tactic(auto)]

ghost use Rattle.std.specs.Prelude.{◌≡◌};
ghost use Rattle.log_codec.specs.Headers.{decoded_header};
ghost use Rattle.log_codec.specs.Records.{decoded};
ghost use Rattle.call_log.specs.Answers.{refusal_in};
ghost use Rattle.call_log.specs.Reader.{note_of, place_after, read_at, settings_of};
ghost use Rattle.call_log.specs.Writer.{add, begin};
ghost use Rattle.log_c.specs.Codes.{answer_code, code_of, note_words, part_words, settings_bytes, turn_bytes, turn_code};
ghost use Rattle.log_c.specs.Codes.{writer_of, writer_words};

use call_log::{Refusal, Writer};

fn code(accepted: Result<(), Refusal>) -> u32
    ensures { result ≡ code_of (refusal_in accepted) }
{
    match accepted {
        Ok(()) => 0,
        Err(refusal) => refusal.code(),
    }
}

#[unsafe(no_mangle)]
pub extern "C" fn obikuteru_log_begin(
    words: &mut [u32; 2],
    settings: &[u8; 32],
    note: &[u8],
    bytes: &mut [u8],
) -> u32
    ensures { let a = begin (decoded_header settings.now 0) note.now bytes.old in
        (result ≡ code_of a.refusal) × (words.new ≡ writer_words a.writer) × (bytes.new ≡ a.bytes) }
{
    let w = call_log::begin(log_codec::get_header(settings, 0), note, bytes);
    *words = [w.writer.offset, w.writer.count];
    code(w.accepted)
}

#[unsafe(no_mangle)]
pub extern "C" fn obikuteru_log_add(words: &mut [u32; 2], call: &[u8; 40], bytes: &mut [u8]) -> u32
    ensures { let a = add (writer_of words.old) (decoded call.now 0) bytes.old in
        (result ≡ code_of a.refusal) × (words.new ≡ writer_words a.writer) × (bytes.new ≡ a.bytes) }
{
    let mut w = Writer {
        offset: words[0],
        count: words[1],
    };
    match call_log::add_call(&mut w, call, bytes) {
        Ok(()) => {
            // The offset stays.
            words[1] = w.count;
            0
        }
        Err(refusal) => refusal.code(),
    }
}

#[unsafe(no_mangle)]
pub extern "C" fn obikuteru_log_read(log: &[u8], place: &mut u64, call: &mut [u8; 40]) -> u32
    ensures { let a = read_at log.now place.old in
        (result ≡ turn_code a) × (place.new ≡ place_after a place.old) × (call.new ≡ turn_bytes a) }
{
    *call = [0; 40];
    match call_log::read_at(log, *place) {
        Ok(Some((record, next))) => {
            log_codec::put(record, call, 0);
            *place = next;
            0
        }
        Ok(None) => 1,
        Err(refusal) => refusal.code(),
    }
}

#[unsafe(no_mangle)]
pub extern "C" fn obikuteru_log_settings(log: &[u8], settings: &mut [u8; 32]) -> u32
    ensures { let a = settings_of log.now in
        (result ≡ answer_code a) × (settings.new ≡ settings_bytes a) }
{
    *settings = [0; 32];
    match call_log::settings(log) {
        Ok(h) => {
            log_codec::put_header(h, settings, 0);
            0
        }
        Err(refusal) => refusal.code(),
    }
}

// Place and length of a part.
fn words_of_part(from: u64, length: u64) -> [u64; 2]
    ensures { result ≡ part_words from length }
{
    if length == 0 {
        return [0, 0];
    }
    [from, length]
}

#[unsafe(no_mangle)]
pub extern "C" fn obikuteru_log_note<'a>(log: &'a [u8], part: &mut [u64; 2]) -> u32
    ensures { let a = note_of log.now in
        (result ≡ answer_code a) × (part.new ≡ note_words a) }
{
    match call_log::settings(log) {
        Ok(_) => {
            let note = call_log::note(log);
            *part = words_of_part(32, note.len() as u64);
            0
        }
        Err(refusal) => {
            *part = [0, 0];
            refusal.code()
        }
    }
}
