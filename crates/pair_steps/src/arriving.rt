// An arrival at records that are well formed, with tables that fit and room in the counts.
ghost use Rattle.std.specs.Prelude.{◌≡◌, cond, true, false, Ok, Err, ◌+◌, ◌≤◌, ◌<◌, eqb, get_or, length, set};
ghost use Rattle.pie.specs.Constants.{largest, most_verdicts};
ghost use Rattle.pie.specs.Verdicts.{place_of, total};
ghost use Rattle.refusals.specs.Answer.{arrival_answer};
ghost use Rattle.store.specs.Following.{link_refused};
ghost use Rattle.store.specs.Put.{free_place, handles_after_put, sizes_after_put, store_after_put};
ghost use Rattle.pair_rules.specs.Queues.{storing};
ghost use Rattle.pair_rules.specs.Arrival.{arrival, arrived_handles, arrived_sizes};
ghost use Rattle.pair_words.specs.After.{own_after, shared_after};
ghost use Rattle.pair_words.specs.Words.{ends_of, records_of, shared_of, shared_words, state_of, store_of};
ghost use Rattle.pair_steps.specs.Lent.{Formed, TablesFit};
ghost use Rattle.pair_steps.specs.Written.{entered_words, settled_words};

use crate::checking::{check_clock, check_size};
use crate::deciding::decided;
use pair_rules::Which;
use pair_words::{
    ACCUMULATED, BYTES, CLOCK, COUNT, FREED, HEAD, SLOTS, SPARE, TAIL, USED, VERDICTS,
};
use pie::{Decided, Verdict};
use refusals::{Packet, Refusal};
use store::{Ends, follow, write_packet};

// Writes clock, accumulated probability and the verdict's count.
fn settle(w: &mut [u64; 21], clock: u64, found: Decided)
    requires { get_or w.old (16 + place_of found.verdict) 0 < most_verdicts }
    ensures { w.new ≡ settled_words w.old clock found.accumulated.0 found.verdict }
{
    let at = VERDICTS + found.verdict.place();
    w[CLOCK] = clock;
    w[ACCUMULATED] = found.accumulated.0;
    w[at] = w[at] + 1;
}

// The head of a queue that had `count` packets, with one more at `place`.
fn set_head(w: &mut [u64; 21], count: u64, place: u64)
    requires { length w.old ≡ 21 }
    ensures { w.new ≡ set w.old 14 (cond (eqb count 0) place (get_or w.old 14 0)) }
{
    if count == 0 {
        w[HEAD] = place;
    }
}

// The packet stands at the tail, at `place`, and its verdict is counted.
fn enter(
    own: &mut [u64; 21],
    handles: &mut [u32],
    sizes: &mut [u32],
    clock: u64,
    packet: Packet,
    place: u64,
    found: Decided,
)
    requires own_len { (length own.old ≡ 21) × (length sizes.old ≤ 65536) × (packet.size ≤ largest) }
    requires place_in_bounds { (place < length handles.old) × (place < length sizes.old) }
    requires own_bound { (get_or own.old 12 0 ≤ 65536) × (get_or own.old 13 0 ≤ 16777216) × (get_or own.old 15 0 < length sizes.old) }
    requires v_bound { get_or own.old (16 + place_of found.verdict) 0 < most_verdicts }
    ensures own_after { own.new ≡ settled_words (entered_words own.old packet.size place) clock found.accumulated.0 found.verdict }
    ensures handles_after { handles.new ≡ handles_after_put handles.old place packet.handle }
    ensures sizes_after { sizes.new
        ≡ sizes_after_put (ends_of own.old) (get_or own.old 12 0) sizes.old place packet.size }
{
    let ends = Ends {
        head: own[HEAD],
        tail: own[TAIL],
    };
    let count = own[COUNT];
    write_packet(
        handles,
        sizes,
        ends,
        count,
        place,
        packet.handle,
        packet.size,
    );
    set_head(own, count, place);
    own[COUNT] = count + 1;
    own[BYTES] = own[BYTES] + packet.size as u64;
    own[TAIL] = place;
    settle(own, clock, found);
}

// A packet with a verdict that admits takes a slot, unless `freed` links to none (refusal 9).
fn admit(
    shared: &mut [u64; 6],
    own: &mut [u64; 21],
    handles: &mut [u32],
    sizes: &mut [u32],
    clock: u64,
    packet: Packet,
    found: Decided,
) -> Result<(), Refusal>
    requires shared_len { (length shared.old ≡ 6) × (length own.old ≡ 21) × (length sizes.old ≡ get_or shared.old 0 0)
        × (get_or shared.old 0 0 ≤ 65536) × (packet.size ≤ largest) }
    requires shared_in_bounds { (free_place (store_of shared.old) < length handles.old) × (free_place (store_of shared.old) < length sizes.old) }
    requires shared_bound { (get_or shared.old 3 0 ≤ 65536) × (get_or shared.old 4 0 < get_or shared.old 0 0) }
    requires own_bound { (get_or own.old 12 0 ≤ 65536) × (get_or own.old 13 0 ≤ 16777216) × (get_or own.old 15 0 < length sizes.old) }
    requires v_bound { get_or own.old (16 + place_of found.verdict) 0 < most_verdicts }
    ensures refusal { let sh = shared.old in
        result ≡ cond (link_refused (get_or sh 0 0) sizes.old (get_or sh 4 0) (get_or sh 5 0)) (Err Refusal.Head) (Ok tt) }
    ensures lost { let sh = shared.old in
        let z = sizes.old in
        (link_refused (get_or sh 0 0) z (get_or sh 4 0) (get_or sh 5 0) ≡ true →
        (shared.new ≡ sh) × (own.new ≡ own.old) × (handles.new ≡ handles.old) × (sizes.new ≡ z)) }
    ensures stored { let sh = shared.old in
        let ow = own.old in
        let z = sizes.old in
        let place = free_place (store_of sh) in
        (link_refused (get_or sh 0 0) z (get_or sh 4 0) (get_or sh 5 0) ≡ false →
        (shared.new ≡ shared_words (storing (shared_of sh) (store_after_put (store_of sh) z)))
        × (own.new ≡ settled_words (entered_words ow packet.size place) clock found.accumulated.0 found.verdict)
        × (handles.new ≡ handles_after_put handles.old place packet.handle)
        × (sizes.new ≡ sizes_after_put (ends_of ow) (get_or ow 12 0) z place packet.size)) }
{
    let spare = shared[SPARE];
    if spare == 0 {
        let place = shared[USED];
        shared[USED] = place + 1;
        enter(own, handles, sizes, clock, packet, place, found);
        return Ok(());
    }
    let place = shared[FREED];
    let next = follow(sizes, place, spare);
    if shared[SLOTS] <= next {
        return Err(Refusal::Head);
    }
    shared[FREED] = next;
    shared[SPARE] = spare - 1;
    enter(own, handles, sizes, clock, packet, place, found);
    Ok(())
}

// A packet arrives at the called queue.
pub fn arrival(
    shared: &mut [u64; 6],
    own: &mut [u64; 21],
    other: &[u64; 21],
    which: Which,
    handles: &mut [u32],
    sizes: &mut [u32],
    clock: u64,
    packet: Packet,
    ecn: bool,
    u: u32,
) -> Result<Verdict, Refusal>
    requires shared_len { length shared.old ≡ 6 }
    requires formed { Formed which shared.old own.old other.now }
    requires tables { TablesFit shared.old handles.old sizes.old }
    requires room { total (state_of own.old).verdicts < most_verdicts }
    ensures { let p = records_of which shared.old own.old other.now in
        let a = arrival p which handles.old sizes.old clock packet.size ecn u in
        (arrival_answer result ≡ a.answer)
        × (shared.new ≡ shared_after a shared.old)
        × (own.new ≡ own_after which a own.old)
        × (handles.new ≡ arrived_handles p a.answer handles.old packet.handle)
        × (sizes.new ≡ arrived_sizes p which a.answer sizes.old packet.size) }
{
    check_clock(own, clock)?;
    check_size(packet.size)?;
    let found = decided(shared, own, other, which, packet.size as u64, ecn, u);
    if !found.verdict.admits() {
        settle(own, clock, found);
        return Ok(found.verdict);
    }
    admit(shared, own, handles, sizes, clock, packet, found)?;
    Ok(found.verdict)
}
