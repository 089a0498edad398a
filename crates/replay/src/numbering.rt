// The numbers of refusals and fields, and the words of what was found.
ghost use Rattle.std.specs.Prelude.{◌≡◌, ◌≤◌, [], ◌∷◌};
ghost use Rattle.replay.specs.Told.{field_number, refusal_number, refusal_told, verdict_told};

use crate::{Field, Refusal, Replayed};

impl Refusal {
    pub fn number(self) -> u32
        ensures { (result ≡ refusal_number self) × (result ≤ 14) }
    {
        match self {
            Refusal::Log(refusal) => refusal.number(),
            Refusal::Tables => 3,
        }
    }
}

// 0 where no field disagrees.
pub(crate) fn code(field: Option<Field>) -> u32
    ensures { result ≡ field_number field }
{
    match field {
        None => 0,
        Some(Field::Verdict) => 1,
        Some(Field::Probability) => 2,
        Some(Field::Bytes) => 3,
    }
}

// Record, refusal (0: none), verdict, probability, bytes.
pub(crate) fn words(r: Replayed) -> [u64; 5]
    ensures { result ≡ r.number ∷ refusal_told r.answer ∷ verdict_told r.answer ∷ r.prob ∷ r.bytes ∷ [] }
{
    match r.answer {
        Ok(verdict) => [r.number, 0, verdict as u64, r.prob, r.bytes],
        Err(refusal) => [r.number, refusal as u64, 0, r.prob, r.bytes],
    }
}
