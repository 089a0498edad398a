// The refusals of tables, of a clock and of a size.
ghost use Rattle.std.specs.Prelude.{◌≡◌, cond, Ok, Err, length};
ghost use Rattle.refusals.specs.Tests.{size_refused};
ghost use Rattle.pair_rules.specs.Refusals.{clock_refused, tables_refused};
ghost use Rattle.pair_words.specs.Words.{shared_of, state_of};

use pair_words::{CLOCK, SLOTS};
use pie::{LARGEST, LATEST};
use refusals::Refusal;

#[tactic(auto, unfolding(pair_words::specs::Words::shared_of))]
pub fn check_tables(shared: &[u64; 6], handles: &[u32], sizes: &[u32]) -> Result<(), Refusal>
    ensures { result ≡ cond (tables_refused (shared_of shared.now) (length handles.now) (length sizes.now))
        (Err Refusal.Tables) (Ok tt) }
{
    let slots = shared[SLOTS];
    if (handles.len() as u64 == slots) & (sizes.len() as u64 == slots) {
        return Ok(());
    }
    Err(Refusal::Tables)
}

#[tactic(auto, unfolding(pair_words::specs::Words::state_of))]
pub fn check_clock(own: &[u64; 21], clock: u64) -> Result<(), Refusal>
    ensures { result ≡ cond (clock_refused (state_of own.now) clock) (Err Refusal.Clock) (Ok tt) }
{
    if (clock < own[CLOCK]) | (LATEST < clock) {
        return Err(Refusal::Clock);
    }
    Ok(())
}

pub fn check_size(size: u32) -> Result<(), Refusal>
    ensures { result ≡ cond (size_refused size) (Err Refusal.Size) (Ok tt) }
{
    if (size == 0) | (LARGEST < size as u64) {
        return Err(Refusal::Size);
    }
    Ok(())
}
