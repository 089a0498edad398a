// Words read as a state.
ghost use Rattle.std.specs.Prelude.{◌≡◌, length};
ghost use Rattle.ring_words.specs.Words.{state_of};

use crate::layout::{ACTIVE, BUFFER, CLOCK, FIRST, LAST, PIE, PROFILE, SLOTS, TARGET, VERDICTS};
use pie_words::{backlog_at, counts_at, pie_at};
use ring::{Settings, State};
use units::{Bytes, Micros};

// The state that the words hold, and that they are twenty-three. No `From`: neither `State` nor an array is this crate's own type.
#[tactic(auto, unfolding(crate::specs::Words::state_of))]
pub fn decode(w: [u64; 23]) -> State
    ensures { (result ≡ state_of w) × (length w ≡ 23) }
{
    let settings = Settings {
        target: Micros(w[TARGET]),
        buffer: Bytes(w[BUFFER]),
        slots: w[SLOTS],
        profile: w[PROFILE],
    };
    State {
        settings,
        clock: Micros(w[CLOCK]),
        last: Micros(w[LAST]),
        pie: pie_at(&w, PIE),
        backlog: backlog_at(&w, PIE),
        first: w[FIRST],
        verdicts: counts_at(&w, VERDICTS),
        active: w[ACTIVE] != 0,
    }
}
