// A fresh record.
ghost use Rattle.std.specs.Prelude.{◌≡◌, replicate};
ghost use Rattle.refusals.specs.Numbers.{refusal_in};
ghost use Rattle.fq_state.specs.Flow.{empty_flow};
ghost use Rattle.fq_state.specs.Fresh.{fresh, fresh_refusal};
ghost use Rattle.fq_words.specs.Words.{flows_of, state_of};

use crate::{Made, set_flow};
use fq_state::{Flow, Settings, empty};
use pie::{FULL_ALLOWANCE, LATEST};
use refusals::Refusal;
use schedule::Lists;
use units::{Bytes, Micros};

// Every flow with nothing queued and this allowance.
fn clear(flows: &mut [u64; 768], allowance: u64)
    ensures { flows_of flows.new ≡ replicate 64 (empty_flow allowance) }
{
    let flow = Flow {
        prob: 0,
        old: 0,
        allowance,
        accumulated: 0,
        average: 0,
        measuring: 0,
        start: 0,
        counted: 0,
        count: 0,
        bytes: 0,
        head: 0,
        tail: 0,
    };
    for i in 0..64 {
        set_flow(flows, i, flow);
    }
}

// A fresh record, or one that is all zero.
pub fn fresh(
    order: &mut [u64; 64],
    deficits: &mut [u32; 64],
    flows: &mut [u64; 768],
    settings: Settings,
    clock: Micros,
) -> Made
    ensures { (refusal_in result.accepted ≡ fresh_refusal settings clock.0)
        × (state_of result.common result.lists order.new deficits.new flows.new ≡ fresh settings clock.0) }
{
    let lists = Lists {
        first: 0,
        old: 0,
        listed: 0,
    };
    let fits = settings.in_range() & (clock.0 <= LATEST);
    *order = [0u64; 64];
    if fits {
        *deficits = [65_535u32; 64];
        clear(flows, FULL_ALLOWANCE);
        return Made {
            accepted: Ok(()),
            common: empty(settings, clock),
            lists,
        };
    }
    *deficits = [0u32; 64];
    clear(flows, 0);
    let none = Settings {
        target: Micros(0),
        buffer: Bytes(0),
        slots: 0,
        salt: 0,
    };
    Made {
        accepted: Err(Refusal::Settings),
        common: empty(none, Micros(0)),
        lists,
    }
}
