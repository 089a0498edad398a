// The five counts of verdicts, at most 2^48 of them.
ghost use Rattle.std.specs.Prelude.{◌≡◌, ◌+◌, ◌≤◌, ◌<◌, eqb, leb, MatchOption};
ghost use Rattle.pie.specs.Constants.{most_verdicts};
ghost use Rattle.pie.specs.Verdicts.{total};

use pie::MOST_VERDICTS;

// What the five counts leave of 2^48; none where they sum to more.
pub fn room_left(counts: [u64; 5]) -> Option<u64>
    ensures { MatchOption result (most_verdicts < total counts) (λ left. total counts + left ≡ most_verdicts) }
{
    let mut left = MOST_VERDICTS;
    for count in counts {
        left = left.checked_sub(count)?;
    }
    Some(left)
}

// Whether the five counts sum to at most 2^48.
pub fn counts_fit(counts: [u64; 5]) -> bool
    ensures { result ≡ leb (total counts) most_verdicts }
{
    room_left(counts).is_some()
}

// Whether the five counts, whose sum is in range, sum to 2^48. It sums them, since `room_left` takes two instructions more.
pub fn counts_full(counts: [u64; 5]) -> bool
    requires { total counts ≤ most_verdicts }
    ensures { result ≡ eqb (total counts) most_verdicts }
{
    let mut sum = 0;
    for count in counts {
        sum += count;
    }
    sum == MOST_VERDICTS
}
