// What the flows of a fresh record have in common.
ghost use Rattle.std.specs.Prelude.{◌≡◌};
ghost use Rattle.fq_state.specs.Fresh.{empty_common};

use crate::{Common, Settings};
use pie::Backlog;
use store::Store;
use units::{Bytes, Micros};

// Nothing queued and nothing counted.
pub fn empty(settings: Settings, clock: Micros) -> Common
    ensures { result ≡ empty_common settings clock.0 }
{
    let backlog = Backlog {
        count: 0,
        bytes: Bytes(0),
    };
    let store = Store {
        used: 0,
        freed: 0,
        spare: 0,
    };
    Common {
        settings,
        clock,
        last: clock,
        backlog,
        store,
        verdicts: [0, 0, 0, 0, 0],
    }
}
