// When the queue is active.
ghost use Rattle.std.specs.Prelude.{◌≡◌, true, ◌≤◌};
ghost use Rattle.pie.specs.Constants.{longest};
ghost use Rattle.ring.specs.Activity.{above_third, is_calm, turns_active, turns_inactive};
ghost use Rattle.ring.specs.State.{well_formed};

use crate::{Settings, State};
use pie::{Pie, refills};

impl Settings {
    pub const CALM: u64 = 1;

    pub fn is_calm(self) -> bool
        ensures { result ≡ is_calm self }
    {
        self.profile == Settings::CALM
    }
}

impl State {
    // Three times the queued bytes are above the buffer.
    fn above_third(self) -> bool
        requires { well_formed self ≡ true }
        ensures { result ≡ above_third self }
    {
        self.settings.buffer.0 < 3 * self.backlog.bytes.0
    }

    // Whether an arrival makes the queue active.
    pub(crate) fn turns_active(self) -> bool
        requires { well_formed self ≡ true }
        ensures { result ≡ turns_active self }
    {
        !self.active && self.above_third()
    }

    // Whether a tick that leaves this makes the queue inactive.
    pub(crate) fn turns_inactive(self, after: Pie) -> bool
        requires self_value { well_formed self ≡ true }
        requires after_le_longest { after.old.0 ≤ longest }
        ensures { result ≡ turns_inactive self after }
    {
        let settings = self.settings;
        let before = self.pie;
        let quiet = refills(after.prob, after.old, before.old, settings.target);
        let loaded = self.above_third();
        settings.is_calm() & quiet & !loaded
    }
}
