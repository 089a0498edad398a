// One call of a flow, from numbers by letter to numbers by letter.
ghost use Rattle.std.specs.Prelude.{◌≤◌, length};

use crate::letters::*;
use docsis_pie::{Activity, DocsisPie, Phase};
use modem::{Counted, FlowRefusal};
use modem_flow::{Settings, State};
use pie::{Backlog, Verdict};
use refusals::Packet;
use units::{Bytes, BytesPerSecond, Micros, Prob};

// 0 packets: as few as the bytes can be.
fn count(packets: u64, bytes: u64) -> u64 {
    if packets > 0 {
        return packets;
    }
    bytes / 65_535 + (bytes % 65_535 + 65_534) / 65_535
}

pub(crate) fn state(v: [u64; 32]) -> State {
    let settings = Settings {
        target: Micros(v[TARGET]),
        buffer: Bytes(v[BUFFER]),
        slots: v[SLOTS],
        peak: BytesPerSecond(v[PEAK]),
        sustained: BytesPerSecond(v[SUSTAINED]),
    };
    let phase = Phase {
        activity: Activity(v[ACTIVITY]),
        reset: Micros(v[RESET]),
    };
    let pie = DocsisPie {
        prob: Prob(v[PROB]),
        accumulated: Prob(v[ACCUMULATED]),
        old: Micros(v[OLD]),
        allowance: Micros(v[ALLOWANCE]),
        phase,
    };
    let backlog = Backlog {
        count: count(v[COUNT], v[BYTES]),
        bytes: Bytes(v[BYTES]),
    };
    State {
        settings,
        clock: Micros(v[CLOCK]),
        last: Micros(v[LAST]),
        pie,
        backlog,
        first: v[FIRST],
    }
}

// What an accepted call gives.
#[derive(Clone, Copy)]
pub(crate) enum Given {
    Nothing,
    Verdict(Verdict),
    Packet(Packet),
}

// The call on this state; the tables that it is lent have as many slots as the numbers say, at most all.
pub(crate) fn call(
    s: &mut State,
    v: [u64; 32],
    counts: [[u64; 5]; 16],
    handles: &mut [u32],
    sizes: &mut [u32],
) -> Counted<Result<Given, FlowRefusal>>
    requires { (64 ≤ length handles.old) × (64 ≤ length sizes.old) }
{
    let flow = v[FLOW];
    let clock = Micros(s.clock.0 % 281_474_976_710_657 + v[LATER] % 281_474_976_710_657);
    let size = Bytes(v[SIZE]);
    let lent = (v[SLOTS] % 65) as usize;
    match v[CALL] {
        0 => {
            let r = modem::tick(s, counts, flow, clock, size);
            let counts = r.counts;
            Counted {
                answer: r.answer.map(|()| Given::Nothing),
                counts,
            }
        }
        2 => {
            let r = modem::departure(s, counts, flow, &handles[..lent], &sizes[..lent], clock);
            let counts = r.counts;
            Counted {
                answer: r.answer.map(Given::Packet),
                counts,
            }
        }
        3 => {
            let r = modem::fresh(counts, flow, state(v).settings, clock);
            *s = r.answer.state;
            let counts = r.counts;
            Counted {
                answer: r.answer.accepted.map(|()| Given::Nothing),
                counts,
            }
        }
        _ => {
            let handle = (v[HANDLE] % 4_294_967_296) as u32;
            let u = (v[RANDOM] % 4_294_967_296) as u32;
            let r = modem::arrival(
                s,
                counts,
                flow,
                &mut handles[..lent],
                &mut sizes[..lent],
                clock,
                handle,
                size,
                u,
            );
            let counts = r.counts;
            Counted {
                answer: r.answer.map(Given::Verdict),
                counts,
            }
        }
    }
}

// What came, by capital letter: the state, the answer, and the counts of the call's flow. The verdict is the place of its count, 6 where
// the call gave none, or 100 and a refusal's number.
pub(crate) fn came(s: State, answer: Result<Given, FlowRefusal>, row: [u64; 5]) -> [u64; 32] {
    let mut came = [0; 32];
    came[ACCUMULATED] = s.pie.accumulated.0;
    came[ALLOWANCE] = s.pie.allowance.0;
    came[OLD] = s.pie.old.0;
    came[PROB] = s.pie.prob.0;
    came[BYTES] = s.backlog.bytes.0;
    came[RESET] = s.pie.phase.reset.0;
    came[ACTIVITY] = s.pie.phase.activity.0;
    came[ENQUEUED] = row[0];
    came[MARKED] = row[1];
    came[DROPPED_BYTES] = row[2];
    came[DROPPED_SLOTS] = row[3];
    came[DROPPED_EARLY] = row[4];
    came[VERDICT] = 6;
    match answer {
        Ok(Given::Nothing) => {}
        Ok(Given::Verdict(v)) => came[VERDICT] = v.place() as u64,
        Ok(Given::Packet(packet)) => {
            came[HANDLE] = packet.handle as u64;
            came[SIZE] = packet.size as u64;
        }
        Err(refusal) => {
            came[REFUSAL] = refusal.number() as u64;
            came[VERDICT] = refusal.code() as u64;
        }
    }
    came
}
