// Tests of refusals that every kind of queue makes: a call goes through them by `?`.
ghost use Rattle.std.specs.Prelude.{◌≡◌, ◌||◌, ◌&&◌, not, cond, eqb, ltb, ◌<◌, ◌≤◌, get_or, length};
ghost use Rattle.pie.specs.Constants.{latest};
ghost use Rattle.refusals.specs.Answer.{refused_where};
ghost use Rattle.refusals.specs.Tests.{head_refused, size_refused};
ghost use Rattle.refusals.specs.declared.Refusal.TheVariants.{Clock, Empty, Head, Size, Tables};

use crate::{Refusal, wrong_head};
use pie::{Backlog, LARGEST, LATEST};
use units::Micros;

// Refusal 3: a table's length is not the slots.
pub fn check_tables(handles: &[u32], sizes: &[u32], slots: u64) -> Result<(), Refusal>
    ensures { result ≡ refused_where (not (eqb (length handles.now) slots && eqb (length sizes.now) slots)) Tables }
{
    if handles.len() as u64 != slots || sizes.len() as u64 != slots {
        return Err(Refusal::Tables);
    }
    Ok(())
}

// Refusal 4: the clock is less than that of the record, or past the latest.
pub fn check_clock(clock: Micros, before: Micros) -> Result<(), Refusal>
    ensures { result ≡ refused_where (ltb clock.0 before.0 || ltb latest clock.0) Clock }
{
    if clock.0 < before.0 || LATEST < clock.0 {
        return Err(Refusal::Clock);
    }
    Ok(())
}

// Refusal 7.
pub fn check_size(size: u64) -> Result<(), Refusal>
    ensures { result ≡ refused_where (size_refused size) Size }
{
    if size == 0 || LARGEST < size {
        return Err(Refusal::Size);
    }
    Ok(())
}

// Refusals 6 and 9: there is no packet, or the head, of this size, cannot be of it.
pub fn check_head(backlog: Backlog, size: u64) -> Result<(), Refusal>
    requires { backlog.count ≤ 65536 }
    ensures { result ≡ cond (eqb backlog.count 0) (refused_where (eqb backlog.count 0) Empty)
        (refused_where (head_refused backlog size) Head) }
{
    if backlog.count == 0 {
        return Err(Refusal::Empty);
    }
    if wrong_head(backlog, size) {
        return Err(Refusal::Head);
    }
    Ok(())
}
