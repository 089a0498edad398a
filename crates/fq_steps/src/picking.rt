// The flow that is served next.
ghost use Rattle.std.specs.Prelude.{◌≡◌, MatchResult, true, false, ℕ, ◌*◌, ◌≤◌, ◌<◌, length};
ghost use Rattle.pie.specs.Constants.{largest};
ghost use Rattle.refusals.specs.declared.Refusal.TheVariants.{Head};
ghost use Rattle.schedule.specs.Choosing as rule;
ghost use Rattle.schedule.specs.Ring.{chosen_in, schedule_of, two_lists};
ghost use Rattle.schedule.specs.WellFormed.{HoldsFlows};
ghost use Rattle.fq_state.specs.State.{flow_at};
ghost use Rattle.fq_rules.specs.Departure.{head_word_refused};
ghost use Rattle.fq_words.specs.Words.{flows_of};

use fq_rules::wrong_word;
use fq_words::flow_at;
use refusals::Refusal;
use schedule::{Lists, choose, pass};

// A flow is chosen, and the word of its head tested: where 9 refuses it, the lists and deficits are put back. They are copied only where
// the choosing comes to a flow that it cannot move without a write.
pub(crate) fn pick(
    order: &mut [u64; 64],
    deficits: &mut [u32; 64],
    flows: &[u64; 768],
    counts: &[u32; 64],
    sizes: &[u32],
    slots: u64,
    lists: &mut Lists,
) -> Result<usize, Refusal>
    requires lists_value { HoldsFlows lists.now order.old }
    requires by_index { (i : ℕ) → i < 64 → let f = flow_at (flows_of flows.now) i in
        (f.head < length sizes.now) × (f.head < 65536) × (f.count ≤ 65536) × (f.bytes ≤ largest * f.count) }
    ensures { let s = schedule_of lists.entry.now order.old deficits.old in
        let c = rule.choose counts.now (two_lists s) in
        let wrong = head_word_refused slots (flow_at (flows_of flows.now) c.flow) sizes.now in
        MatchResult result
        (λ flow. (flow ≡ c.flow) × (flow < 64) × (wrong ≡ false)
        × (schedule_of lists.exit.now order.new deficits.new ≡ chosen_in s c))
        (λ refusal. (refusal ≡ Head) × (wrong ≡ true)
        × (schedule_of lists.exit.now order.new deficits.new ≡ s)) }
{
    let mut at = *lists;
    let passed = pass(order, deficits, counts, &mut at);
    match passed {
        Ok(flow) => {
            let f = flow_at(flows, flow);
            let wrong = wrong_word(f, slots, sizes);
            if wrong {
                return Err(Refusal::Head);
            }
            *lists = at;
            Ok(flow)
        }
        Err(looks) => {
            let listed = *order;
            let owed = *deficits;
            let flow = choose(order, deficits, counts, &mut at, looks);
            let f = flow_at(flows, flow);
            let wrong = wrong_word(f, slots, sizes);
            if wrong {
                *order = listed;
                *deficits = owed;
                return Err(Refusal::Head);
            }
            *lists = at;
            Ok(flow)
        }
    }
}
