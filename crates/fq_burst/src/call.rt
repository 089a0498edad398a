// A call of a list, read from its ten numbers.
ghost use Rattle.std.specs.Prelude.{◌≡◌, ◌+◌, ◌<◌, length};
ghost use Rattle.fq_burst.specs.Calls.{call_at};
ghost use Rattle.fq_burst.specs.Read.{call_in};

use crate::numbers::key_of;
use bursts::clock_of;

#[derive(Clone, Copy)]
pub(crate) enum Read {
    Arrival {
        clock: u64,
        key: [u8; 13],
        handle: u32,
        size: u32,
        ecn: bool,
        u: u32,
    },
    Departure {
        clock: u64,
    },
    Tick {
        clock: u64,
    },
}

// The call at `at`; none where its kind is unknown.
#[tactic(auto, unfolding(crate::specs::Calls::call_at))]
pub(crate) fn read_at(calls: &[u32], at: usize) -> Option<Read>
    requires { at + 9 < length calls.now }
    ensures { call_in result ≡ call_at calls.now at }
{
    let clock = clock_of(calls[at], calls[at + 1]);
    let kind = calls[at + 5];
    if kind < 2 {
        let key = key_of(calls[at + 6], calls[at + 7], calls[at + 8], calls[at + 9]);
        return Some(Read::Arrival {
            clock,
            key,
            handle: calls[at + 2],
            size: calls[at + 3],
            ecn: kind == 1,
            u: calls[at + 4],
        });
    }
    if kind == 2 {
        return Some(Read::Departure { clock });
    }
    if kind == 3 {
        return Some(Read::Tick { clock });
    }
    None
}
