// Runs the script on standard input and writes its answers to standard output.
#![tactic(auto)]

ghost use Rattle.std.specs.Prelude.{◌≡◌, true, ◌≤◌, length, IfSome};
ghost use Rattle.script_program.specs.Feeds.{Feeds, FeedsSome};

use script::Runner;
use std::io::Read;

// Feeds input until the output has no room for more, and writes that. Where more is to be fed, it answers how much is taken.
fn feed_some(
    rt: &impl Print,
    runner: &mut Runner,
    handles: &mut [u32],
    sizes: &mut [u32],
    input: &[u8],
    output: &mut [u8],
) -> Option<usize>
    ensures fed { FeedsSome runner.old handles.old sizes.old input.now runner.new handles.new sizes.new }
    ensures feeds { IfSome result (λ taken. (taken ≤ length input.now) ×
        Feeds runner.old handles.old sizes.old input.now taken runner.new handles.new sizes.new) }
{
    let fed = script::feed(*runner, handles, sizes, input, output);
    *runner = fed.runner;
    let is_written = rt.write_all(&output[..fed.written]).is_ok();
    let more = is_written & !script::is_over(fed.runner);
    more.then_some(fed.taken)
}

// Feeds a piece of input, and tells whether more is to be fed: then all of this is.
fn feed_piece(
    rt: &impl Print,
    runner: &mut Runner,
    handles: &mut [u32],
    sizes: &mut [u32],
    input: &[u8],
    output: &mut [u8],
) -> bool
    ensures fed { FeedsSome runner.old handles.old sizes.old input.now runner.new handles.new sizes.new }
    ensures feeds { result ≡ true →
        Feeds runner.old handles.old sizes.old input.now (length input.now) runner.new handles.new sizes.new }
{
    let mut at = 0;
    // No `for`: a turn takes as much as the output has room for.
    while at < input.len() {
        let Some(taken) = feed_some(rt, runner, handles, sizes, &input[at..], output) else {
            return false;
        };
        if taken == 0 {
            return false;
        }
        at += taken;
    }
    true
}

// The end of the input.
fn finish(
    rt: &impl Print,
    runner: Runner,
    handles: &mut [u32],
    sizes: &mut [u32],
    output: &mut [u8],
) {
    let fed = script::finish(runner, handles, sizes, output);
    let written = fed.written;
    let _ = rt.write_all(&output[..written]);
}

// Reads once, feeds what came, and tells whether to read on. A read that fails is the end of the input.
fn read_piece<R: Read>(
    rt: &impl Print,
    from: &mut R,
    runner: &mut Runner,
    handles: &mut [u32],
    sizes: &mut [u32],
    input: &mut [u8],
    output: &mut [u8],
) -> bool {
    let n = from.read(input).unwrap_or(0);
    if n == 0 {
        finish(rt, *runner, handles, sizes, output);
        return false;
    }
    feed_piece(rt, runner, handles, sizes, &input[..n], output)
}

// A proved loop has to end, and nothing says that an input does. So the loop counts its turns,
// up to a number that no run reaches.
fn run<R: Read>(
    rt: &impl Print,
    from: &mut R,
    handles: &mut [u32],
    sizes: &mut [u32],
    input: &mut [u8],
    output: &mut [u8],
) {
    let mut runner = script::begin();
    for _ in 0..u64::MAX {
        if !read_piece(rt, from, &mut runner, handles, sizes, input, output) {
            return;
        }
    }
}

fn main(rt: HostRuntime) {
    let mut from = rt.stdin();
    let mut handles = [0u32; 4096];
    let mut sizes = [0u32; 4096];
    let mut input = [0u8; 65536];
    let mut output = [0u8; 65536];
    run(
        &rt,
        &mut from,
        &mut handles,
        &mut sizes,
        &mut input,
        &mut output,
    );
}
