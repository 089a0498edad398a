// A packet leaves a chain from its head.
ghost use Rattle.std.specs.Prelude.{◌≡◌, ◌≤◌, ◌<◌, length};
ghost use Rattle.store.specs.Take.{ends_after_take, sizes_after_take, store_after_take};

use crate::following::follow;
use crate::{Ends, Store};

impl Store {
    // The store with one more freed slot.
    pub fn take(self, place: u64) -> Store
        requires { self.spare ≤ 65536 }
        ensures { result ≡ store_after_take self place }
    {
        Store {
            freed: place,
            spare: self.spare + 1,
            ..self
        }
    }
}

impl Ends {
    // The ends of a chain of `count` packets without its head.
    pub fn take(self, sizes: &[u32], count: u64) -> Ends
        requires { (self.head < length sizes.now) × (self.head < 65536) }
        ensures { result ≡ ends_after_take self count sizes.now }
    {
        let head = follow(sizes, self.head, count);
        Ends { head, ..self }
    }
}

// Links the slot at `place` to the one that was freed before it, with size 0.
pub fn write_freed(sizes: &mut [u32], place: u64, freed: u64)
    requires { (place < length sizes.old) × (place < 65536) × (freed < 65536) }
    ensures { sizes.new ≡ sizes_after_take sizes.old place freed }
{
    let at = place as usize;
    sizes[at] = 65_536 * freed as u32;
}
