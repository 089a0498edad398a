// A refusal's number as the word of a step's answer.
ghost use Rattle.std.specs.Prelude.{◌≡◌, ◌+◌};
ghost use Rattle.refusals.specs.Numbers.{number_of};

use refusals::Refusal;

pub(crate) fn refused(refusal: Refusal) -> u64
    ensures { result ≡ 100 + number_of refusal }
{
    refusals::refused(refusal) as u64
}
