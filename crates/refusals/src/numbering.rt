// The numbers of the refusals.
ghost use Rattle.std.specs.Prelude.{◌≡◌, ◌+◌, ◌≤◌};
ghost use Rattle.refusals.specs.Numbers.{number_of};
ghost use Rattle.refusals.specs.Codes.{code_in};

use crate::Refusal;

impl Refusal {
    pub fn number(self) -> u32
        ensures { (result ≡ number_of self) × (result ≤ 9) }
    {
        self as u32
    }
}

// The number that a C caller gets for a refusal: its own, with 100.
pub fn refused(r: Refusal) -> u32
    ensures { result ≡ 100 + number_of r }
{
    100 + r.number()
}

// The number that a C caller gets for a call that gives this number where it is accepted.
pub fn code(answer: Result<u32, Refusal>) -> u32
    ensures { result ≡ code_in answer }
{
    answer.unwrap_or_else(refused)
}
