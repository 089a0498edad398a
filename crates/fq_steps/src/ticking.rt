// A tick of all flows.
ghost use Rattle.std.specs.Prelude.{◌≡◌, true, map};
ghost use Rattle.laws.specs.Tests.{all};
ghost use Rattle.fq_state.specs.WellFormed.{common_conditions, flows_fit};
ghost use Rattle.fq_rules.specs.Tick.{ticked_flow};
ghost use Rattle.fq_words.specs.Words.{flows_of};

use fq_rules::tick_flow;
use fq_state::Common;
use fq_words::{flow_at, set_flow};

// Every flow after a tick, listed or not.
pub(crate) fn tick_all(flows: &mut [u64; 768], common: Common)
    requires { (all (common_conditions common) ≡ true) × (flows_fit common (flows_of flows.old) ≡ true) }
    ensures { flows_of flows.new ≡ map (ticked_flow common.settings.target.0) (flows_of flows.old) }
{
    for i in 0..64 {
        let f = flow_at(flows, i);
        let next = tick_flow(f, common);
        set_flow(flows, i, next);
    }
}
