// The same calls by the number that a C caller gets, for the burst, which puts it into the word of an answer.
ghost use Rattle.std.specs.Prelude.{◌≡◌, true, [], ◌∷◌, ◌<◌, eqb, length};
ghost use Rattle.pie.specs.Constants.{most_verdicts};
ghost use Rattle.pie.specs.Verdicts.{total};
ghost use Rattle.pair_rules.specs.WellFormed.{well_formed};
ghost use Rattle.pair_rules.specs.Arrival.{arrival, arrived_handles, arrived_sizes};
ghost use Rattle.pair_rules.specs.Departure.{departed_sizes, departure};
ghost use Rattle.pair_rules.specs.Tick.{tick};
ghost use Rattle.refusals.specs.Codes.{code_of, packet_of};
ghost use Rattle.pair_words.specs.After.{own_after, shared_after};
ghost use Rattle.pair_words.specs.Words.{pair_of, shared_of, state_of, which_of};

use crate::{arrival, departure, update_probability};
use pair_rules::Which;
use refusals::{Packet, refused};

// A packet arrives at the queue 0, the intercom, or 1, the passengers.
pub fn arrive(
    shared: &mut [u64; 6],
    own: &mut [u64; 21],
    other: &[u64; 21],
    queue: usize,
    handles: &mut [u32],
    sizes: &mut [u32],
    clock: u64,
    handle: u32,
    size: u32,
    ecn: bool,
    u: u32,
) -> u32
    requires queue_bound { (queue < 2) × (length shared.old ≡ 6) × (length own.old ≡ 21) }
    requires other_value { well_formed (pair_of (eqb queue 1) shared.old own.old other.now) ≡ true }
    requires handles_len { (length handles.old ≡ (shared_of shared.old).slots) × (length sizes.old ≡ (shared_of shared.old).slots) }
    requires own_bound { total (state_of own.old).verdicts < most_verdicts }
    ensures { let p = pair_of (eqb queue 1) shared.old own.old other.now in
        let a = arrival p (which_of (eqb queue 1)) handles.old sizes.old clock size ecn u in
        (result ≡ code_of a.answer)
        × (shared.new ≡ shared_after a shared.old)
        × (own.new ≡ own_after (which_of (eqb queue 1)) a own.old)
        × (handles.new ≡ arrived_handles p a.answer handles.old handle)
        × (sizes.new ≡ arrived_sizes p (which_of (eqb queue 1)) a.answer sizes.old size) }
{
    let which = Which::from(queue == 1);
    let packet = Packet { handle, size };
    match arrival(
        shared, own, other, which, handles, sizes, clock, packet, ecn, u,
    ) {
        Ok(verdict) => verdict.place() as u32,
        Err(refusal) => refused(refusal),
    }
}

// The head leaves. Nothing is written to the packet of a refused departure.
pub fn depart(
    shared: &mut [u64; 6],
    own: &mut [u64; 21],
    other: &[u64; 21],
    second: bool,
    handles: &[u32],
    sizes: &mut [u32],
    clock: u64,
    packet: &mut [u32; 2],
) -> u32
    requires shared_len { (length shared.old ≡ 6) × (length own.old ≡ 21) }
    requires other_value { well_formed (pair_of second shared.old own.old other.now) ≡ true }
    requires handles_len { (length handles.now ≡ (shared_of shared.old).slots) × (length sizes.old ≡ (shared_of shared.old).slots) }
    requires packet_value { packet.old ≡ 0 ∷ 0 ∷ [] }
    ensures { let p = pair_of second shared.old own.old other.now in
        let a = departure p (which_of second) handles.now sizes.old clock in
        (result ≡ code_of a.answer)
        × (shared.new ≡ shared_after a shared.old)
        × (own.new ≡ own_after (which_of second) a own.old)
        × (sizes.new ≡ departed_sizes p (which_of second) a.answer sizes.old)
        × (packet.new ≡ packet_of a.answer) }
{
    let which = Which::from(second);
    match departure(shared, own, other, which, handles, sizes, clock) {
        Ok(head) => {
            *packet = [head.handle, head.size];
            0
        }
        Err(refusal) => refused(refusal),
    }
}

pub fn tick(
    shared: &[u64; 6],
    own: &mut [u64; 21],
    other: &[u64; 21],
    second: bool,
    clock: u64,
) -> u32
    requires own_len { length own.old ≡ 21 }
    requires other_value { well_formed (pair_of second shared.now own.old other.now) ≡ true }
    ensures { let p = pair_of second shared.now own.old other.now in
        let a = tick p (which_of second) clock in
        (result ≡ code_of a.answer) × (own.new ≡ own_after (which_of second) a own.old) }
{
    match update_probability(shared, own, other, Which::from(second), clock) {
        Ok(()) => 0,
        Err(refusal) => refused(refusal),
    }
}
