// The table of counts, as it is lent: sixteen rows of five.
ghost use Rattle.std.specs.Prelude.{◌≡◌, ◌<◌, ◌≤◌};
ghost use Rattle.pie.specs.Constants.{most_verdicts};
ghost use Rattle.pie.specs.Verdicts.{total};
ghost use Rattle.refusals.specs.Answer.{verdict};
ghost use Rattle.modem.specs.Counts.{counts_after, row_of};

use pie::Verdict;

// One count of the row rises by one.
#[tactic(auto, unfolding(crate::specs::Counts::counts_after, pie::specs::Verdicts::raised))]
pub(crate) fn raise(counts: &mut [[u64; 5]; 16], row: usize, v: Verdict)
    requires { (row ≤ 15) × (total (row_of counts.old row) < most_verdicts) }
    ensures { counts.new ≡ counts_after counts.old row (verdict v) }
{
    counts[row][v.place()] += 1;
}
