// The entry of `replay` for C programs to link.
#![tactic(auto)]

ghost use Rattle.std.specs.Prelude.{◌≡◌};
ghost use Rattle.replay.specs.Replay.{replay};
ghost use Rattle.replay.specs.Replied.{handles_after, sizes_after};
ghost use Rattle.replay.specs.Found.{code_of, words_of};

#[unsafe(no_mangle)]
pub extern "C" fn obikuteru_replay(
    log: &[u8],
    handles: &mut [u32],
    sizes: &mut [u32],
    found: &mut [u64; 5],
) -> u32
    ensures { let a = replay log.now handles.old sizes.old in
        (result ≡ code_of a)
        × (found.new ≡ words_of a)
        × (handles.new ≡ handles_after a handles.old)
        × (sizes.new ≡ sizes_after a sizes.old) }
{
    replay::obikuteru_replay(log, handles, sizes, found)
}
