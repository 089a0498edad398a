// The numbers of the refusals.
ghost use Rattle.std.specs.Prelude.{◌≡◌, ◌+◌, ◌≤◌};
ghost use Rattle.call_log.specs.Answers.{refusal_number};

use crate::Refusal;

impl Refusal {
    pub fn number(self) -> u32
        ensures { (result ≡ refusal_number self) × (result ≤ 14) }
    {
        self as u32
    }

    // The number that a C caller gets.
    pub fn code(self) -> u32
        ensures { result ≡ 100 + refusal_number self }
    {
        100 + self.number()
    }
}
