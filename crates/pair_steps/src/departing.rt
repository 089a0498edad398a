// A departure from records that are well formed, with tables that fit.
ghost use Rattle.std.specs.Prelude.{◌≡◌, length};
ghost use Rattle.refusals.specs.Answer.{departure_answer};
ghost use Rattle.pair_rules.specs.Departure.{departed_sizes, departure};
ghost use Rattle.pair_words.specs.After.{own_after, shared_after};
ghost use Rattle.pair_words.specs.Words.{records_of};
ghost use Rattle.pair_steps.specs.Lent.{Formed, TablesFit};

use crate::checking::check_clock;
use pair_rules::Which;
use pair_words::{BYTES, CLOCK, COUNT, FREED, HEAD, PIE, SLOTS, SPARE};
use pie::Backlog;
use pie_words::{backlog_at, measure};
use refusals::{Packet, Refusal, wrong_head};
use store::{follow, leads_nowhere, size_at, write_freed};
use units::{Bytes, Micros};

// The head leaves.
pub fn departure(
    shared: &mut [u64; 6],
    own: &mut [u64; 21],
    other: &[u64; 21],
    which: Which,
    handles: &[u32],
    sizes: &mut [u32],
    clock: u64,
) -> Result<Packet, Refusal>
    requires shared_len { length shared.old ≡ 6 }
    requires formed { Formed which shared.old own.old other.now }
    requires tables { TablesFit shared.old handles.now sizes.old }
    ensures { let p = records_of which shared.old own.old other.now in
        let a = departure p which handles.now sizes.old clock in
        (departure_answer result ≡ a.answer)
        × (shared.new ≡ shared_after a shared.old)
        × (own.new ≡ own_after which a own.old)
        × (sizes.new ≡ departed_sizes p which a.answer sizes.old) }
{
    check_clock(own, clock)?;
    let queued = backlog_at(own, PIE);
    if queued.count == 0 {
        return Err(Refusal::Empty);
    }
    let head = own[HEAD];
    let size = size_at(sizes, head);
    if wrong_head(queued, size as u64) {
        return Err(Refusal::Head);
    }
    if leads_nowhere(sizes, head, queued.count, shared[SLOTS]) {
        return Err(Refusal::Head);
    }
    let next = follow(sizes, head, queued.count);
    let handle = handles[head as usize];
    write_freed(sizes, head, shared[FREED]);
    shared[FREED] = head;
    shared[SPARE] = shared[SPARE] + 1;
    let left = Backlog {
        count: queued.count - 1,
        bytes: Bytes(queued.bytes.0 - size as u64),
    };
    own[CLOCK] = clock;
    own[COUNT] = left.count;
    own[BYTES] = left.bytes.0;
    own[HEAD] = next;
    measure(own, PIE, Micros(clock), Bytes(size as u64), left);
    Ok(Packet { handle, size })
}
