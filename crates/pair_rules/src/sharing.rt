// The slots that are common to both queues.
ghost use Rattle.std.specs.Prelude.{◌≡◌, ◌&&◌, ◌+◌, ◌-◌, ◌≤◌, eqb, leb};
ghost use Rattle.pair_rules.specs.Facing.{facing};
ghost use Rattle.pair_rules.specs.Queues.{common_slots};

use crate::{Reserves, Shared, Which};

impl Shared {
    // The same with the called queue's reserve in the first place.
    pub fn facing(self, which: Which) -> Shared
        ensures { result ≡ facing which self }
    {
        match which {
            Which::Intercom => self,
            Which::Passengers => {
                let reserves = Reserves {
                    intercom: self.reserves.passengers,
                    passengers: self.reserves.intercom,
                };
                Shared { reserves, ..self }
            }
        }
    }

    // Rule 2, where the first queue is called: the counts of both.
    pub fn full(self, own: u64, other: u64) -> bool
        requires passengers_bound { (self.reserves.intercom + self.reserves.passengers ≤ self.slots) × (self.slots ≤ 65536) }
        requires own_bound { (own ≤ 65536) × (other ≤ 65536) }
        ensures { result ≡ (leb self.reserves.intercom own
            && eqb ((own - self.reserves.intercom) + (other - self.reserves.passengers)) (common_slots self)) }
    {
        let reserves = self.reserves;
        if own < reserves.intercom {
            return false;
        }
        own + other.max(reserves.passengers) == self.slots
    }
}
