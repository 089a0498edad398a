// A packet enters a chain at its tail.
ghost use Rattle.std.specs.Prelude.{◌≡◌, ◌≤◌, ◌<◌, length};
ghost use Rattle.store.specs.Put.{ends_after_put, free_place, handles_after_put, linked, sizes_after_put, store_after_put};

use crate::following::follow;
use crate::{Ends, Store};

impl Store {
    // The place of the next packet.
    pub fn free_place(self) -> u64
        ensures { result ≡ free_place self }
    {
        if 1 <= self.spare {
            self.freed
        } else {
            self.used
        }
    }

    // The store without that place.
    #[tactic(auto, unfolding(crate::specs::Put::store_after_put))]
    pub fn put(self, sizes: &[u32]) -> Store
        requires { (self.freed < length sizes.now) × (self.freed < 65536) × (self.used ≤ 65536) }
        ensures { result ≡ store_after_put self sizes.now }
    {
        if 1 <= self.spare {
            let freed = follow(sizes, self.freed, self.spare);
            Store {
                freed,
                spare: self.spare - 1,
                ..self
            }
        } else {
            Store {
                used: self.used + 1,
                ..self
            }
        }
    }
}

impl Ends {
    // The ends of a chain of `count` packets with one more, at `place`.
    #[tactic(auto, unfolding(crate::specs::Put::ends_after_put))]
    pub fn put(self, count: u64, place: u64) -> Ends
        ensures { result ≡ ends_after_put self count place }
    {
        let head = if count == 0 { place } else { self.head };
        Ends { head, tail: place }
    }
}

// Links the tail of a chain of `count` packets, if it has one, to `place`.
fn link(sizes: &mut [u32], ends: Ends, count: u64, place: u64)
    requires { (ends.tail < length sizes.old) × (ends.tail < 65536) × (place < 65536) }
    ensures { sizes.new ≡ linked ends count sizes.old place }
{
    if 1 <= count {
        let last = ends.tail as usize;
        sizes[last] = sizes[last] % 65_536 + 65_536 * place as u32;
    }
}

// Writes a packet at `place`, behind the tail of a chain of `count` packets.
#[tactic(auto, unfolding(crate::specs::Put::sizes_after_put))]
pub fn write_packet(
    handles: &mut [u32],
    sizes: &mut [u32],
    ends: Ends,
    count: u64,
    place: u64,
    handle: u32,
    size: u32,
)
    requires place_in_bounds { (place < length handles.old) × (place < length sizes.old) × (place < 65536) }
    requires tail_in_bounds { (ends.tail < length sizes.old) × (ends.tail < 65536) }
    ensures handles_after { handles.new ≡ handles_after_put handles.old place handle }
    ensures sizes_after { sizes.new ≡ sizes_after_put ends count sizes.old place size }
{
    link(sizes, ends, count, place);
    let at = place as usize;
    handles[at] = handle;
    sizes[at] = size;
}
