// The answers of the queue, written out.
#![tactic(auto)]

ghost use Rattle.std.specs.Prelude.{◌++◌, Err};
ghost use Rattle.decimal.specs.Digits.{digits_of};
ghost use Rattle.decimal.specs.Written.{HasRoom, Wrote};
ghost use Rattle.script_answers.specs.Output.{answer_of, ascii, bad_text, state_text, verdict_word, word_of};

use decimal::Output;
use pie::Verdict;
use refusals::Refusal;
use ring::State;

// What an accepted call answers.
#[derive(Clone, Copy)]
pub enum Accepted {
    Made,
    Decided(Verdict),
    Departed { handle: u32 },
    Ticked,
}

pub fn put_verdict(verdict: Verdict, out: &mut Output<'_>)
    requires { HasRoom out.old 40 }
    ensures { Wrote 40 out.old out.new (verdict_word verdict) }
{
    match verdict {
        Verdict::Enqueued => out.text(b"enqueued"),
        Verdict::Marked => out.text(b"marked"),
        Verdict::DroppedBytes => out.text(b"dropped-bytes"),
        Verdict::DroppedSlots => out.text(b"dropped-slots"),
        Verdict::DroppedEarly => out.text(b"dropped-early"),
    }
}

pub fn put_departed(handle: u32, out: &mut Output<'_>)
    requires { HasRoom out.old 40 }
    ensures { Wrote 40 out.old out.new (ascii "departed " ++ digits_of handle) }
{
    out.text(b"departed ");
    out.number(handle as u64);
}

pub fn put_refused(refusal: Refusal, out: &mut Output<'_>)
    requires { HasRoom out.old 40 }
    ensures { Wrote 40 out.old out.new (word_of (answer_of (Err refusal))) }
{
    out.text(b"refused ");
    out.number(refusal.number() as u64);
}

pub fn put_answer(answer: Result<Accepted, Refusal>, out: &mut Output<'_>)
    requires { HasRoom out.old 40 }
    ensures { Wrote 40 out.old out.new (word_of (answer_of answer)) }
{
    match answer {
        Ok(Accepted::Made) => out.text(b"ok"),
        Ok(Accepted::Decided(verdict)) => put_verdict(verdict, out),
        Ok(Accepted::Departed { handle }) => put_departed(handle, out),
        Ok(Accepted::Ticked) => out.text(b"ticked"),
        Err(refusal) => put_refused(refusal, out),
    }
}

pub fn put_field(n: u64, out: &mut Output<'_>)
    requires { HasRoom out.old 21 }
    ensures { Wrote 21 out.old out.new (ascii " " ++ digits_of n) }
{
    out.text(b" ");
    out.number(n);
}

// The probability and the bytes, and the line's end.
pub fn put_state(state: State, out: &mut Output<'_>)
    requires { HasRoom out.old 43 }
    ensures { Wrote 43 out.old out.new (state_text state) }
{
    put_field(state.pie.prob.0, out);
    put_field(state.backlog.bytes.0, out);
    out.text(b"\n"); // ends the line
}

pub fn put_bad(line: u64, out: &mut Output<'_>)
    requires { HasRoom out.old 30 }
    ensures { Wrote 30 out.old out.new (bad_text line) }
{
    out.text(b"bad line ");
    out.number(line);
    out.text(b"\n");
}
