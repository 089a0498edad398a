// A call of a list, read from its six numbers.
ghost use Rattle.std.specs.Prelude.{◌≡◌, ◌+◌, ◌<◌, length};
ghost use Rattle.modem_burst.specs.Calls.{call_at};
ghost use Rattle.modem_burst.specs.Read.{call_in};

use bursts::clock_of;
use refusals::Packet;

#[derive(Clone, Copy)]
pub(crate) enum Read {
    Arrival { clock: u64, packet: Packet, u: u32 },
    Departure { clock: u64 },
    Tick { clock: u64, credits: u32 },
}

// The call at `at`; none where its kind is unknown. Departures are tested for first (docs/PERFORMANCE.md).
pub(crate) fn read_at(calls: &[u32], at: usize) -> Option<Read>
    requires { at + 5 < length calls.now }
    ensures { call_in result ≡ call_at calls.now at }
{
    let clock = clock_of(calls[at], calls[at + 1]);
    let kind = calls[at + 5];
    let departs = kind == 2;
    if departs {
        return Some(Read::Departure { clock });
    }
    let arrives = kind == 0;
    if arrives {
        let packet = Packet {
            handle: calls[at + 2],
            size: calls[at + 3],
        };
        return Some(Read::Arrival {
            clock,
            packet,
            u: calls[at + 4],
        });
    }
    let ticks = kind == 3;
    if ticks {
        return Some(Read::Tick {
            clock,
            credits: calls[at + 3],
        });
    }
    None
}
