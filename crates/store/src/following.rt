// A word's size, and its link where it is followed.
ghost use Rattle.std.specs.Prelude.{◌≡◌, ◌<◌, length};
ghost use Rattle.store.specs.Following.{followed, link_refused};
ghost use Rattle.store.specs.Words.{link_at, size_at};

pub fn size_at(sizes: &[u32], place: u64) -> u32
    requires { (place < length sizes.now) × (place < 65536) }
    ensures { result ≡ size_at sizes.now place }
{
    sizes[place as usize] % 65_536
}

// The link above it.
fn link_at(sizes: &[u32], place: u64) -> u64
    requires { (place < length sizes.now) × (place < 65536) }
    ensures { result ≡ link_at sizes.now place }
{
    u64::from(sizes[place as usize] / 65_536)
}

// The place behind the first of `count` linked places; the first itself where it is the last.
pub fn follow(sizes: &[u32], place: u64, count: u64) -> u64
    requires { (place < length sizes.now) × (place < 65536) }
    ensures { result ≡ followed sizes.now place count }
{
    if 2 <= count {
        link_at(sizes, place)
    } else {
        place
    }
}

// Whether the link that `follow` reads is one to no slot.
pub fn leads_nowhere(sizes: &[u32], place: u64, count: u64, slots: u64) -> bool
    requires { (place < length sizes.now) × (place < 65536) }
    ensures { result ≡ link_refused slots sizes.now place count }
{
    2 <= count && slots <= link_at(sizes, place)
}
