// A ring of places in two tables, of handles and of sizes.
#![tactic(auto)]

ghost use Rattle.std.specs.Prelude.{◌≡◌, ◌+◌, ◌<◌, ◌≤◌, ◌%◌, length, set};

// Where the packet at place `i` stands: one comparison and one subtraction give the remainder.
pub fn place(first: u64, i: u64, slots: u64) -> u64
    requires { (first < slots) × (i ≤ slots) × (slots ≤ 65536) }
    ensures { result ≡ (first + i) % slots }
{
    let at = first + i;
    if at < slots { at } else { at - slots }
}

// The same where `i` is the count, told by the slots left: without a jump in an innermost loop (docs/PERFORMANCE.md).
pub fn tail_place(first: u64, count: u64, slots: u64) -> u64
    requires { (first < slots) × (count ≤ slots) × (slots ≤ 65536) }
    ensures { result ≡ (first + count) % slots }
{
    let left = slots - count;
    if first < left {
        first + count
    } else {
        first - left
    }
}

// The place after `first`, without a jump in an innermost loop; `tail_place(first, 1, slots)` subtracts where this has a 0.
pub fn following(first: u64, slots: u64) -> u64
    requires { (first < slots) × (slots ≤ 65536) }
    ensures { result ≡ (first + 1) % slots }
{
    let last = slots - 1;
    if first < last { first + 1 } else { 0 }
}

// Writes a packet behind the `count` from `first` on: one element of each table.
pub fn store(
    handles: &mut [u32],
    sizes: &mut [u32],
    first: u64,
    count: u64,
    slots: u64,
    handle: u32,
    size: u32,
)
    requires first_lt_slots { (first < slots) × (count ≤ slots) × (slots ≤ 65536) }
    requires handles_len { (length handles.old ≡ slots) × (length sizes.old ≡ slots) }
    ensures handles_after { handles.new ≡ set handles.old ((first + count) % slots) handle }
    ensures sizes_after { sizes.new ≡ set sizes.old ((first + count) % slots) size }
{
    let at = place(first, count, slots) as usize;
    handles[at] = handle;
    sizes[at] = size;
}
