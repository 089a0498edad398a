// A tick of one flow.
ghost use Rattle.std.specs.Prelude.{◌≡◌, true};
ghost use Rattle.laws.specs.Tests.{all};
ghost use Rattle.fq_state.specs.WellFormed.{common_conditions, flow_conditions};
ghost use Rattle.fq_rules.specs.Tick.{ticked_flow};

use fq_state::{Common, Flow};
use pie::FULL_ALLOWANCE;
use units::Bytes;

// A flow after a tick. An idle one, with no probability, delay or byte, only has its allowance filled: most flows are idle.
pub fn tick_flow(f: Flow, common: Common) -> Flow
    requires { (all (common_conditions common) ≡ true) × (all (flow_conditions common f) ≡ true) }
    ensures { result ≡ ticked_flow common.settings.target.0 f }
{
    let idle = (f.prob == 0) & (f.old == 0) & (f.bytes == 0);
    if idle {
        return Flow {
            allowance: FULL_ALLOWANCE,
            ..f
        };
    }
    let before = f.pie();
    let settings = common.settings;
    let next = before.update(false, settings.target, Bytes(f.bytes));
    f.with(next, f.backlog(), f.ends())
}
