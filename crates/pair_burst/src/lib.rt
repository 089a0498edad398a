// One entry for a list of calls on two queues: the records are tested once, and each call is answered as the single entries would.
#![tactic(auto)]

ghost use Rattle.std.specs.Prelude.{◌≡◌, cond, false, true, ℕ, ◌+◌, ◌*◌, ◌≤◌, length};
ghost use Rattle.pair_rules.specs.declared.Which.TheVariants.{Intercom};
ghost use Rattle.pie.specs.Constants.{most_verdicts};
ghost use Rattle.pie.specs.Verdicts.{total};
ghost use Rattle.bursts.specs.Burst.{burst, done, fits, outcome};
ghost use Rattle.pair_rules.specs.WellFormed.{well_formed};
ghost use Rattle.pair_words.specs.Words.{pair_of, shared_of, state_of};
ghost use Rattle.pair_burst.specs.Burst.{lent, pair_bursts};
ghost use Rattle.pair_burst.specs.Fitting.{Ready, lent_both};

use crate::one::answer;
use bursts::{Queue, answer_each, has_room};
use pair_words::{SLOTS, VERDICTS, records_fit};
use pie_words::counts_at;

mod one;

// Whether the records are well formed, the tables fit them and both queues' counts have room for `n` arrivals. It decides only the cost.
fn ready(
    shared: &[u64; 6],
    intercom: &[u64; 21],
    passengers: &[u64; 21],
    handles: u64,
    sizes: u64,
    n: u64,
) -> bool
    ensures { (result ≡ true) → ((length shared.now ≡ 6)
        × (length intercom.now ≡ 21)
        × (length passengers.now ≡ 21)
        × (well_formed (pair_of false shared.now intercom.now passengers.now) ≡ true)
        × (handles ≡ (shared_of shared.now).slots)
        × (sizes ≡ (shared_of shared.now).slots)
        × (total (state_of intercom.now).verdicts + n ≤ most_verdicts)
        × (total (state_of passengers.now).verdicts + n ≤ most_verdicts)) }
{
    let formed = records_fit(shared, intercom, passengers, false);
    if !formed {
        return false;
    }
    let slots = shared[SLOTS];
    let fit = (handles == slots) & (sizes == slots);
    if !fit {
        return false;
    }
    let first = has_room(counts_at(intercom, VERDICTS), n);
    if !first {
        return false;
    }
    has_room(counts_at(passengers, VERDICTS), n)
}

// Two queues as they are lent. Where `tested`, the records are ready for the calls.
#[derive(Drop)]
struct Lent<'a> {
    shared: &'a mut [u64; 6],
    both: &'a mut [[u64; 21]; 2],
    handles: &'a mut [u32],
    sizes: &'a mut [u32],
    tested: bool,
}

impl Queue for Lent<'_> {
    ghost kind = { pair_bursts };

    ghost state = { λ q. lent_both q.shared.now q.both.now q.handles.now q.sizes.now };

    ghost ready = { λ q n. (length q.both.now ≡ 2) × ((q.tested ≡ true) → Ready (lent_both q.shared.now q.both.now q.handles.now q.sizes.now) n) };

    ghost Names = { ℕ × ℕ × ℕ × ℕ };

    ghost names = { λ q. (q.shared.ghost_name, q.both.ghost_name, q.handles.ghost_name, q.sizes.ghost_name) };

    fn answer(&mut self, calls: &[u32], i: usize) -> u64 {
        answer(
            self.shared,
            self.both,
            self.handles,
            self.sizes,
            calls,
            6 * i,
            self.tested,
        )
    }
}

// `calls` has six numbers for each of `answers`; where it has not, nothing is done.
#[unsafe(no_mangle)]
pub extern "C" fn obikuteru_pair_calls(
    shared: &mut [u64; 6],
    intercom: &mut [u64; 21],
    passengers: &mut [u64; 21],
    handles: &mut [u32],
    sizes: &mut [u32],
    calls: &[u32],
    answers: &mut [u64],
) -> u32
    ensures value { result ≡ cond (fits pair_bursts calls.now answers.old) 0 120 }
    ensures answers_after { done pair_bursts (lent Intercom shared.new intercom.new passengers.new
        handles.new sizes.new) answers.new
        ≡ outcome pair_bursts (lent Intercom shared.old intercom.old passengers.old
        handles.old sizes.old) calls.now answers.old }
{
    let n = answers.len();
    let fit = (calls.len() % 6 == 0) & (calls.len() / 6 == n);
    if !fit {
        return 120;
    }
    let tested = ready(
        shared,
        intercom,
        passengers,
        handles.len() as u64,
        sizes.len() as u64,
        n as u64,
    );
    let mut both: [[u64; 21]; 2] = [*intercom, *passengers];
    answer_each(
        &mut Lent {
            shared,
            both: &mut both,
            handles,
            sizes,
            tested,
        },
        calls,
        answers,
    );
    *intercom = both[0];
    *passengers = both[1];
    0
}
