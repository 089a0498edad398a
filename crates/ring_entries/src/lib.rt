// The entries of `ring_c` for C programs to link.
#![tactic(auto)]

ghost use Rattle.std.specs.Prelude.{◌≡◌, []};
ghost use Rattle.ring.specs.State.{well_formed};
ghost use Rattle.ring.specs.Fresh.{fresh, settings_of};
ghost use Rattle.ring_words.specs.Words.{state_of, state_words};
ghost use Rattle.ring_words.specs.Lent.{code_to, leaves, lent, reply_to};
ghost use Rattle.refusals.specs.Codes.{code_of, packet_of};
ghost use Rattle.calls.specs.Requests.{ask_arrival, ask_departure, ask_tick};

#[unsafe(no_mangle)]
pub extern "C" fn obikuteru_fresh(
    words: &mut [u64; 23],
    target: u64,
    buffer: u64,
    slots: u64,
    profile: u64,
    clock: u64,
) -> u32
    ensures value { result ≡ code_of (fresh (settings_of target buffer slots profile) clock).answer }
    ensures words_after { words.new ≡ state_words [] (fresh (settings_of target buffer slots profile) clock).state }
{
    ring_c::obikuteru_fresh(words, target, buffer, slots, profile, clock)
}

#[unsafe(no_mangle)]
pub extern "C" fn obikuteru_arrival(
    words: &mut [u64; 23],
    handles: &mut [u32],
    sizes: &mut [u32],
    clock: u64,
    handle: u32,
    size: u32,
    ecn: bool,
    u: u32,
) -> u32
    ensures { let q = lent words.old handles.old sizes.old in
        let asked = ask_arrival clock handle size ecn u in
        (result ≡ code_to q asked)
        × (words.new ≡ (leaves q asked).words)
        × (handles.new ≡ (leaves q asked).handles)
        × (sizes.new ≡ (leaves q asked).sizes) }
{
    ring_c::obikuteru_arrival(words, handles, sizes, clock, handle, size, ecn, u)
}

#[unsafe(no_mangle)]
pub extern "C" fn obikuteru_departure(
    words: &mut [u64; 23],
    handles: &[u32],
    sizes: &[u32],
    clock: u64,
    packet: &mut [u32; 2],
) -> u32
    ensures { let q = lent words.old handles.now sizes.now in
        let asked = ask_departure clock in
        (result ≡ code_to q asked)
        × (words.new ≡ (leaves q asked).words)
        × (packet.new ≡ packet_of (reply_to q asked).answer) }
{
    ring_c::obikuteru_departure(words, handles, sizes, clock, packet)
}

#[unsafe(no_mangle)]
pub extern "C" fn obikuteru_tick(words: &mut [u64; 23], clock: u64) -> u32
    ensures { let q = lent words.old [] [] in
        (result ≡ code_to q (ask_tick clock)) × (words.new ≡ (leaves q (ask_tick clock)).words) }
{
    ring_c::obikuteru_tick(words, clock)
}

#[unsafe(no_mangle)]
pub extern "C" fn obikuteru_well_formed(words: &[u64; 23]) -> bool
    ensures { result ≡ well_formed (state_of words.now) }
{
    ring_c::obikuteru_well_formed(words)
}
