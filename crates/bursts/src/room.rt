// Room in the counts of verdicts, asked once for a burst.
ghost use Rattle.std.specs.Prelude.{◌≡◌, ◌+◌, ◌≤◌, leb};
ghost use Rattle.pie.specs.Constants.{most_verdicts};
ghost use Rattle.pie.specs.Verdicts.{total};

use pie::MOST_VERDICTS;

// Whether the counts, which sum to at most 2^48, have room for `n` arrivals.
pub fn has_room(counts: [u64; 5], n: u64) -> bool
    requires { total counts ≤ most_verdicts }
    ensures { result ≡ leb (total counts + n) most_verdicts }
{
    let mut sum = 0;
    for count in counts {
        sum += count;
    }
    n <= MOST_VERDICTS - sum
}
