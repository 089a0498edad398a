// A tick of a queue that is ready for it.
ghost use Rattle.std.specs.Prelude.{◌≡◌, true, length};
ghost use Rattle.ring.specs.Activity.{is_calm};
ghost use Rattle.ring.specs.State.{well_formed};
ghost use Rattle.ring.specs.Tick.{tick, ticked_state};
ghost use Rattle.refusals.specs.Codes.{code_of};
ghost use Rattle.ring_words.specs.Codes.{words_after};
ghost use Rattle.ring_words.specs.Words.{state_of, state_words};

use crate::codes::refused;
use pie::{LATEST, PERIOD, refills};
use pie_words::update;
use refusals::Refusal;
use ring_words::{ACTIVE, BUFFER, BYTES, CLOCK, LAST, OLD, PIE, PROFILE, TARGET};
use units::Micros;

// The tick of a calm queue: an inactive one's clocks alone; an active one may turn inactive (Q-12).
fn tick_calm(w: &mut [u64; 23], clock: u64)
    requires { (length w.old ≡ 23) × (well_formed (state_of w.old) ≡ true) × (is_calm (state_of w.old).settings ≡ true) }
    ensures { w.new ≡ state_words w.old (ticked_state (state_of w.old) clock) }
{
    let inactive = w[ACTIVE] == 0;
    if inactive {
        w[CLOCK] = clock;
        w[LAST] = clock;
        return;
    }
    let target = Micros(w[TARGET]);
    let old = Micros(w[OLD]);
    let queued = w[BYTES];
    let next = update(w, PIE, true, target);
    let quiet = refills(next.prob, next.old, old, target);
    let loaded = w[BUFFER] < 3 * queued;
    w[CLOCK] = clock;
    w[LAST] = clock;
    let turns = quiet & !loaded;
    if turns {
        w[ACTIVE] = 0;
    }
}

// The periodic update. A plain queue is always active.
pub fn tick(w: &mut [u64; 23], clock: u64) -> u64
    requires { (length w.old ≡ 23) × (well_formed (state_of w.old) ≡ true) }
    ensures { let a = tick (state_of w.old) clock in
        (result ≡ code_of a.answer) × (w.new ≡ words_after a w.old) }
{
    let wrong_clock = (clock < w[CLOCK]) | (LATEST < clock);
    if wrong_clock {
        return refused(Refusal::Clock);
    }
    let too_soon = clock < w[LAST] + PERIOD;
    if too_soon {
        return refused(Refusal::TooSoon);
    }
    let calm = w[PROFILE] == 1;
    if calm {
        tick_calm(w, clock);
        return 0;
    }
    let target = Micros(w[TARGET]);
    update(w, PIE, false, target);
    w[CLOCK] = clock;
    w[LAST] = clock;
    0
}
