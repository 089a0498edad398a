// The writer: settings, note and trailer, then one record after another, each over the old trailer.
ghost use Rattle.std.specs.Prelude.{◌≡◌, ◌+◌, ◌*◌, ◌≤◌, ◌<◌, length};
ghost use Rattle.std.proofs.lemmas.List.Edits.{sets};
ghost use Rattle.log_codec.specs.Records.{decoded};
ghost use Rattle.call_log.specs.Answers.{refusal_in};
ghost use Rattle.call_log.specs.Layout.{trailer_of};
ghost use Rattle.call_log.specs.Writer.{add as add_by, add_refusal, added, begin as begin_by, begin_refusal, begun, reply_of};

use crate::faults::{faulty, header_refused};
use crate::{Refusal, Writer, Written};
use log_codec::{Header, Record};

// Offset, count, the size of a record, and the letters.
fn put_trailer(offset: u32, count: u32, bytes: &mut [u8], at: usize)
    requires { at + 16 ≤ length bytes.old }
    ensures { bytes.new ≡ sets bytes.old at (trailer_of offset count) }
{
    log_codec::put4(offset, bytes, at);
    log_codec::put4(count, bytes, at + 4);
    log_codec::put4(40, bytes, at + 8);
    log_codec::put4(1_196_379_217, bytes, at + 12);
}

// The note's bytes, from byte 32 on. One by one: std's copy calls memmove, which the archive does not ask of firmware.
fn put_note(note: &[u8], bytes: &mut [u8])
    requires { 32 + length note.now ≤ length bytes.old }
    ensures { bytes.new ≡ sets bytes.old 32 note.now }
{
    for i in 0..note.len() {
        bytes[32 + i] = note[i];
    }
}

fn put_beginning(h: Header, note: &[u8], bytes: &mut [u8])
    requires { (length note.now ≤ 4096) × (48 + length note.now ≤ length bytes.old) }
    ensures { bytes.new ≡ begun h note.now bytes.old }
{
    let n = note.len();
    log_codec::put_header(h, bytes, 0);
    put_note(note, bytes);
    put_trailer((32 + n) as u32, 0, bytes, 32 + n);
}

// A record's bytes over the old trailer, and the new trailer after them.
fn put_call(w: Writer, call: &[u8; 40], bytes: &mut [u8])
    requires { (w.offset ≤ 4128) × (w.count < 100000) × (w.offset + 40 * (w.count + 1) + 16 ≤ length bytes.old) }
    ensures { bytes.new ≡ added w (decoded call.now 0) bytes.old }
{
    // A copy, which `bytes` cannot overlap: the compiler makes three moves of it.
    let own = *call;
    let at = (w.offset + 40 * w.count) as usize;
    bytes[at..at + 40].copy_from_slice(&own);
    put_trailer(w.offset, w.count + 1, bytes, at + 40);
}

// Whether settings and note can begin a log in so many bytes.
fn may_begin(h: Header, note: usize, bytes: usize) -> Result<(), Refusal>
    ensures { refusal_in result ≡ begin_refusal h note bytes }
{
    let wrong = header_refused(h);
    if wrong {
        return Err(Refusal::Settings);
    }
    let long = 4_096 < note;
    if long {
        return Err(Refusal::Room);
    }
    let small = bytes < 48 + note;
    if small {
        return Err(Refusal::Room);
    }
    Ok(())
}

pub fn begin(h: Header, note: &[u8], bytes: &mut [u8]) -> Written
    ensures { reply_of result.accepted result.writer bytes.new ≡ begin_by h note.now bytes.old }
{
    let n = note.len();
    match may_begin(h, n, bytes.len()) {
        Ok(()) => {
            put_beginning(h, note, bytes);
            Written {
                accepted: Ok(()),
                writer: Writer {
                    offset: (32 + n) as u32,
                    count: 0,
                },
            }
        }
        Err(refusal) => Written {
            accepted: Err(refusal),
            writer: Writer {
                offset: 0,
                count: 0,
            },
        },
    }
}

// Whether a record can be added in so many bytes.
fn may_add(w: Writer, r: Record, bytes: usize) -> Result<(), Refusal>
    ensures { refusal_in result ≡ add_refusal w r bytes }
{
    let offset = w.offset as u64;
    let count = w.count as u64;
    let length = bytes as u64;
    let unreached = !((32 <= offset)
        & (offset <= 4_128)
        & (count <= 100_000)
        & (offset + 40 * count + 16 <= length));
    if unreached {
        return Err(Refusal::Trailer);
    }
    let fault = faulty(r);
    if fault {
        return Err(Refusal::Fault);
    }
    let full = (100_000 <= count) | (length < offset + 40 * (count + 1) + 16);
    if full {
        return Err(Refusal::Room);
    }
    Ok(())
}

// A record that is lent as its bytes.
pub fn add_call(w: &mut Writer, call: &[u8; 40], bytes: &mut [u8]) -> Result<(), Refusal>
    ensures { reply_of result w.new bytes.new ≡ add_by w.old (decoded call.now 0) bytes.old }
{
    may_add(*w, log_codec::get(call, 0), bytes.len())?;
    put_call(*w, call, bytes);
    w.count += 1;
    Ok(())
}

pub fn add(w: &mut Writer, r: Record, bytes: &mut [u8]) -> Result<(), Refusal>
    ensures { reply_of result w.new bytes.new ≡ add_by w.old r bytes.old }
{
    let mut call = [0; 40];
    log_codec::put(r, &mut call, 0);
    add_call(w, &call, bytes)
}
