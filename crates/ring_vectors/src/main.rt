// Document 01's numbers that are run and not proved: 'Numbers on each side' but for P1 to P12, and 'Slips that look right'.
// Each line says what was expected and what came.
#![tactic(auto)]

mod print;
mod situation;

use pie::Verdict;
use print::{Answered, print_line};
use refusals::Refusal;
use ring::State;
use situation::Situation;
use units::Micros;

// Rule 6, for a packet that is not ECN-capable.
fn draws(rt: &impl Print) {
    let s = Situation::loaded();
    print_line(
        rt,
        "p 0 with u 0 is never early",
        Answered(Ok(Verdict::Enqueued)),
        s.with_prob(0).arrival(0),
    );
    print_line(
        rt,
        "p 2^32 with u 4,294,967,295 is early",
        Answered(Ok(Verdict::DroppedEarly)),
        s.with_prob(4_294_967_296).arrival(4_294_967_295),
    );
}

// Rule 4 on each side: past it, and past rule 5, u 0 is early.
fn light_load(rt: &impl Print) {
    let s = Situation::loaded();
    print_line(
        rt,
        "old delay 7,499 with p 858,993,459 is enqueued by rule 4",
        Answered(Ok(Verdict::Enqueued)),
        s.with_old(7_499).with_prob(858_993_459).arrival(0),
    );
    print_line(
        rt,
        "old delay 7,500 goes on to rule 5",
        Answered(Ok(Verdict::DroppedEarly)),
        s.with_old(7_500).with_prob(858_993_459).arrival(0),
    );
    print_line(
        rt,
        "p 858,993,460 goes on to rule 5",
        Answered(Ok(Verdict::DroppedEarly)),
        s.with_old(7_499).with_prob(858_993_460).arrival(0),
    );
    print_line(
        rt,
        "an odd target 15,001 with old delay 7,500 is enqueued by rule 4",
        Answered(Ok(Verdict::Enqueued)),
        s.with_target(15_001)
            .with_old(7_500)
            .with_prob(858_993_459)
            .arrival(0),
    );
    print_line(
        rt,
        "target 15,001 with old delay 7,501 goes on to rule 5",
        Answered(Ok(Verdict::DroppedEarly)),
        s.with_target(15_001)
            .with_old(7_501)
            .with_prob(858_993_459)
            .arrival(0),
    );
}

// Rule 5 on each side.
fn small_queue(rt: &impl Print) {
    let s = Situation::loaded();
    print_line(
        rt,
        "3,000 bytes are enqueued by rule 5",
        Answered(Ok(Verdict::Enqueued)),
        s.with_bytes(3_000).arrival(0),
    );
    print_line(
        rt,
        "3,001 bytes go on to rule 6",
        Answered(Ok(Verdict::DroppedEarly)),
        s.with_bytes(3_001).arrival(0),
    );
}

// The state after a tick at this clock.
fn ticked(mut s: State, clock: u64) -> State {
    let _ = s.tick(Micros(clock));
    s
}

// The number by which a call is refused, or 0.
fn refusal_number(accepted: Result<(), Refusal>) -> u32 {
    match accepted {
        Ok(()) => 0,
        Err(refusal) => refusal.number(),
    }
}

// Ticks: rounding toward zero, k by the probability before the tick, and the allowance.
fn ticks(rt: &impl Print) {
    let s = Situation::measured();
    let down = ticked(s.with_prob(5_000_000).state(), 15_000);
    print_line(
        rt,
        "p 5,000,000, delay 14,000, old delay 15,000: a step of -738,197",
        4_261_803,
        down.pie.prob.0,
    );
    let up = ticked(s.with_prob(4_294).with_old(12_000).state(), 15_000);
    print_line(
        rt,
        "p 4,294, delay 14,000, old delay 12,000: k is 2,048, by p before the step",
        9_274,
        up.pie.prob.0,
    );
    let spent = ticked(s.with_allowance(15_000).state(), 15_000);
    print_line(
        rt,
        "allowance 15,000 at a tick becomes 0",
        0,
        spent.pie.allowance.0,
    );
    let filled = ticked(Situation::resting().with_allowance(15_000).state(), 15_000);
    print_line(
        rt,
        "unless rule 8 fills it",
        150_000,
        filled.pie.allowance.0,
    );
}

// A tick that comes twice in one period, and the clock of a refused call.
fn refusals(rt: &impl Print) {
    let mut s = Situation::measured().with_allowance(150_000).state();
    let _ = s.tick(Micros(15_000));
    print_line(
        rt,
        "a tick at 15,000 takes 15,000 from the allowance",
        135_000,
        s.pie.allowance.0,
    );
    print_line(
        rt,
        "a tick at 29,999 is refused by 5",
        5,
        refusal_number(s.tick(Micros(29_999))),
    );
    print_line(
        rt,
        "it takes nothing from the allowance",
        135_000,
        s.pie.allowance.0,
    );
    print_line(rt, "it leaves the clock", 15_000, s.clock.0);
    print_line(
        rt,
        "a tick at 30,000 is accepted",
        0,
        refusal_number(s.tick(Micros(30_000))),
    );
}

fn main(rt: HostRuntime) {
    draws(&rt);
    light_load(&rt);
    small_queue(&rt);
    ticks(&rt);
    refusals(&rt);
}
