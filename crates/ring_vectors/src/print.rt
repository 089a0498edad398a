// One line for an example: what it is, what was expected, what came.
use pie::Verdict;
use refusals::Refusal;
use std::fmt;

// What an arrival answered.
#[derive(Clone, Copy)]
pub(crate) struct Answered(pub(crate) Result<Verdict, Refusal>);

impl fmt::Display for Answered {
    fn fmt<W: fmt::Write>(&self, f: &mut fmt::Formatter<W>) -> fmt::Result {
        match self.0 {
            Ok(Verdict::Enqueued) => write!(f, "enqueued"),
            Ok(Verdict::Marked) => write!(f, "marked"),
            Ok(Verdict::DroppedBytes) => write!(f, "dropped-bytes"),
            Ok(Verdict::DroppedSlots) => write!(f, "dropped-slots"),
            Ok(Verdict::DroppedEarly) => write!(f, "dropped-early"),
            Err(refusal) => write!(f, "refused as {}", 100 + refusal.number()),
        }
    }
}

pub(crate) fn print_line<T: fmt::Display + Drop>(
    rt: &impl Print,
    example: &str,
    expected: T,
    came: T,
) {
    let _ = println!(rt; "{example}: expected {expected}, came {came}");
}
