// A tick of records that are well formed.
ghost use Rattle.std.specs.Prelude.{◌≡◌};
ghost use Rattle.refusals.specs.Answer.{accepted_answer, ticked};
ghost use Rattle.pair_rules.specs.Tick.{tick};
ghost use Rattle.pair_words.specs.After.{own_after};
ghost use Rattle.pair_words.specs.Words.{records_of};
ghost use Rattle.pair_steps.specs.Lent.{Formed};

use crate::checking::check_clock;
use pair_rules::Which;
use pair_words::{CLOCK, LAST, PIE, TARGET};
use pie::PERIOD;
use pie_words::update;
use refusals::Refusal;
use units::Micros;

// The periodic update of the called queue's probability.
pub fn update_probability(
    shared: &[u64; 6],
    own: &mut [u64; 21],
    other: &[u64; 21],
    which: Which,
    clock: u64,
) -> Result<(), Refusal>
    requires { Formed which shared.now own.old other.now }
    ensures { let a = tick (records_of which shared.now own.old other.now) which clock in
        (accepted_answer result ticked ≡ a.answer) × (own.new ≡ own_after which a own.old) }
{
    check_clock(own, clock)?;
    if clock < own[LAST] + PERIOD {
        return Err(Refusal::TooSoon);
    }
    let target = Micros(own[TARGET]);
    update(own, PIE, false, target);
    own[CLOCK] = clock;
    own[LAST] = clock;
    Ok(())
}
