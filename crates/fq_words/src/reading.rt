// The flows as words, twelve to a flow. One flat array, each word by its place: C lends it so (struct obikuteru_fq).
ghost use Rattle.std.specs.Prelude.{◌≡◌, ◌<◌, ◌*◌, set};
ghost use Rattle.fq_state.specs.State.{flow_at};
ghost use Rattle.fq_words.specs.Words.{flow_from, flows_of};
ghost use Rattle.fq_words.specs.Written.{fields_of, written};

use crate::layout::{
    ACCUMULATED, ALLOWANCE, AVERAGE, COUNTED, FLOW_BYTES, FLOW_COUNT, HEAD, MEASURING, OLD_DELAY,
    PROB, START, TAIL,
};
use fq_state::Flow;

// The flow whose words stand at twelve times this number.
fn read(w: &[u64; 768], i: usize) -> Flow
    requires { i < 64 }
    ensures { result ≡ flow_from w.now (12 * i) }
{
    let at = 12 * i;
    Flow {
        prob: w[at + PROB],
        old: w[at + OLD_DELAY],
        allowance: w[at + ALLOWANCE],
        accumulated: w[at + ACCUMULATED],
        average: w[at + AVERAGE],
        measuring: w[at + MEASURING],
        start: w[at + START],
        counted: w[at + COUNTED],
        count: w[at + FLOW_COUNT],
        bytes: w[at + FLOW_BYTES],
        head: w[at + HEAD],
        tail: w[at + TAIL],
    }
}

fn write(w: &mut [u64; 768], i: usize, f: Flow)
    requires { i < 64 }
    ensures { w.new ≡ written w.old (12 * i) 0 (fields_of f) }
{
    let at = 12 * i;
    w[at + PROB] = f.prob;
    w[at + OLD_DELAY] = f.old;
    w[at + ALLOWANCE] = f.allowance;
    w[at + ACCUMULATED] = f.accumulated;
    w[at + AVERAGE] = f.average;
    w[at + MEASURING] = f.measuring;
    w[at + START] = f.start;
    w[at + COUNTED] = f.counted;
    w[at + FLOW_COUNT] = f.count;
    w[at + FLOW_BYTES] = f.bytes;
    w[at + HEAD] = f.head;
    w[at + TAIL] = f.tail;
}

// The flow of this number.
pub fn flow_at(w: &[u64; 768], i: usize) -> Flow
    requires { i < 64 }
    ensures { result ≡ flow_at (flows_of w.now) i }
{
    read(w, i)
}

// Another flow of this number; every other flow's words stay.
pub fn set_flow(w: &mut [u64; 768], i: usize, f: Flow)
    requires { i < 64 }
    ensures { flows_of w.new ≡ set (flows_of w.old) i f }
{
    write(w, i, f);
}
