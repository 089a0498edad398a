// The refusals of a call on a well-formed record, but for 9.
ghost use Rattle.std.specs.Prelude.{◌≡◌, true, ◌+◌, ◌≤◌, ◌<◌, eqb, length};
ghost use Rattle.pie.specs.Constants.{most_verdicts};
ghost use Rattle.pie.specs.Verdicts.{total};
ghost use Rattle.refusals.specs.Numbers.{refusal_in};
ghost use Rattle.refusals.specs.Rows.{first_refusal};
ghost use Rattle.fq_state.specs.State.{State};
ghost use Rattle.fq_state.specs.WellFormed.{common_conditions, well_formed};
ghost use Rattle.fq_rules.specs.Departure.{before_choosing};
ghost use Rattle.fq_rules.specs.Arrival.{before_verdict};
ghost use Rattle.fq_rules.specs.Tick.{tick_refusal};
ghost use Rattle.laws.specs.Tests.{all};

use fq_state::Common;
use pie::PERIOD;
use refusals::{Refusal, check_clock, check_size, check_tables, counts_full};
use units::{Bytes, Micros};

// Refusal 8, which is not due where there is known to be room.
fn are_full(counts: [u64; 5], room: bool) -> bool
    requires counts_bound { total counts ≤ most_verdicts }
    requires counts_bound_2 { (room ≡ true) → (total counts < most_verdicts) }
    ensures { result ≡ eqb (total counts) most_verdicts }
{
    if room {
        return false;
    }
    counts_full(counts)
}

// Refusals 3, 4, 7 and 8 of an arrival. Where `room`, the counts are not full.
pub(crate) fn check_arrival(
    common: Common,
    handles: &[u32],
    sizes: &[u32],
    clock: Micros,
    size: Bytes,
    room: bool,
) -> Result<(), Refusal>
    requires common_value { all (common_conditions common) ≡ true }
    requires verdicts_bound { (room ≡ true) → (total common.verdicts < most_verdicts) }
    ensures { (s : State) → s.common ≡ common → well_formed s ≡ true →
        refusal_in result ≡ first_refusal (before_verdict s (length handles.now) (length sizes.now) clock.0 size.0) }
{
    check_tables(handles, sizes, common.settings.slots)?;
    check_clock(clock, common.clock)?;
    check_size(size.0)?;
    if are_full(common.verdicts, room) {
        return Err(Refusal::Counts);
    }
    Ok(())
}

// Refusals 3, 4 and 6 of a departure.
pub(crate) fn check_departure(
    common: Common,
    handles: &[u32],
    sizes: &[u32],
    clock: Micros,
) -> Result<(), Refusal>
    ensures { (s : State) → s.common ≡ common → well_formed s ≡ true →
        refusal_in result ≡ first_refusal (before_choosing s (length handles.now) (length sizes.now) clock.0) }
{
    check_tables(handles, sizes, common.settings.slots)?;
    check_clock(clock, common.clock)?;
    if common.backlog.count == 0 {
        return Err(Refusal::Empty);
    }
    Ok(())
}

// Refusals 4 and 5 of a tick.
#[tactic(auto, unfolding(fq_rules::specs::Tick::tick_refusal))]
pub(crate) fn check_tick(common: Common, clock: Micros) -> Result<(), Refusal>
    requires { all (common_conditions common) ≡ true }
    ensures { (s : State) → s.common ≡ common → well_formed s ≡ true → refusal_in result ≡ tick_refusal s clock.0 }
{
    check_clock(clock, common.clock)?;
    if clock.0 < common.last.0 + PERIOD {
        return Err(Refusal::TooSoon);
    }
    Ok(())
}
