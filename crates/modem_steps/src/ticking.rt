// A tick of a flow whose record is formed.
ghost use Rattle.std.specs.Prelude.{◌≡◌, true, List, ℕ, ◌≤◌, get_or, length};
ghost use Rattle.pie.specs.Constants.{most_verdicts};
ghost use Rattle.pie.specs.Verdicts.{total};
ghost use Rattle.docsis_pie.specs.Constants.{quiescent, reset_timeout};
ghost use Rattle.docsis_pie.specs.Update.{phase_after, waited};
ghost use Rattle.modem_flow.specs.State.{formed};
ghost use Rattle.modem_flow.specs.Tick.{tick};
ghost use Rattle.refusals.specs.Codes.{code_of};
ghost use Rattle.modem_words.specs.Words.{pie_of, state_of, state_words};
ghost use Rattle.modem_steps.specs.Words.{phase_words};

use docsis_pie::{Activity, PERIOD, delay, next_allowance, next_prob, quiet, timed_out};
use modem_words::{
    ACTIVITY, ALLOWANCE, BYTES, CLOCK, LAST, OLD, PEAK, PROB, RESET, SUSTAINED, TARGET,
};
use pie::LATEST;
use refusals::{Refusal, refused};
use units::{Bytes, BytesPerSecond, Micros, Prob};

// Rule 11: a quiescent flow that has been quiet for so long.
fn wait(w: &mut [u64; 16], reset: u64)
    requires { (length w.old ≡ 16) × (get_or w.old 12 0 ≡ quiescent) }
    ensures { w.new ≡ phase_words w.old (waited reset) }
{
    let over = timed_out(Micros(reset));
    if over {
        w[RESET] = 0;
        w[ACTIVITY] = Activity::INACTIVE.0;
        return;
    }
    w[RESET] = reset;
}

// Rules 10 and 11.
fn follow(w: &mut [u64; 16], quiet: bool)
    requires { (length w.old ≡ 16) × (get_or w.old 11 0 ≤ reset_timeout) }
    ensures { w.new ≡ phase_words w.old (phase_after quiet (pie_of w.old).phase) }
{
    let was_active = w[ACTIVITY] == Activity::ACTIVE.0;
    if was_active {
        if quiet {
            w[RESET] = 0;
            w[ACTIVITY] = Activity::QUIESCENT.0;
        }
        return;
    }
    let was_quiescent = w[ACTIVITY] == Activity::QUIESCENT.0;
    if was_quiescent {
        if quiet {
            let reset = w[RESET] + PERIOD;
            wait(w, reset);
            return;
        }
        w[RESET] = 0;
    }
}

// The promise is for every row that sums to at most 2^48; the call reads none. By numbers and not by the record of the algorithm, which
// would be handed over in memory.
pub fn tick(w: &mut [u64; 16], clock: u64, credits: u64) -> u64
    requires { (length w.old ≡ 16) × (formed (state_of w.old) ≡ true) }
    ensures { (row : List ℕ) → total row ≤ most_verdicts →
        let a = tick (state_of w.old) row clock credits in
        (result ≡ code_of a.answer) × (w.new ≡ state_words a.state) }
{
    let wrong_clock = (clock < w[CLOCK]) | (LATEST < clock);
    if wrong_clock {
        return refused(Refusal::Clock) as u64;
    }
    let too_soon = clock < w[LAST] + PERIOD;
    if too_soon {
        return refused(Refusal::TooSoon) as u64;
    }
    let target = Micros(w[TARGET]);
    let old = Micros(w[OLD]);
    let before = Micros(w[ALLOWANCE]);
    let now = delay(
        Bytes(w[BYTES]),
        Bytes(credits),
        BytesPerSecond(w[PEAK]),
        BytesPerSecond(w[SUSTAINED]),
    );
    let prob = next_prob(Prob(w[PROB]), before, now, old, target);
    let allowance = next_allowance(before);
    w[CLOCK] = clock;
    w[LAST] = clock;
    w[PROB] = prob.0;
    w[OLD] = now.0;
    w[ALLOWANCE] = allowance.0;
    follow(w, quiet(prob, allowance, now, old, target));
    0
}
