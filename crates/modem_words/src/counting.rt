// The lent table of counts: sixteen rows of five.
ghost use Rattle.std.specs.Prelude.{◌≡◌, ◌<◌, ◌≤◌};
ghost use Rattle.pie.specs.Constants.{most_verdicts};
ghost use Rattle.pie.specs.Verdicts.{total};
ghost use Rattle.refusals.specs.Answer.{verdict};
ghost use Rattle.modem.specs.Counts.{counts_after, row_of};

use pie::Verdict;

// One count of the flow's row rises by one. `modem` has the same for its own calls: none of its public functions asks for anything.
#[tactic(auto, unfolding(modem::specs::Counts::counts_after, pie::specs::Verdicts::raised))]
pub fn raise(counts: &mut [[u64; 5]; 16], flow: u32, v: Verdict)
    requires { (flow ≤ 15) × (total (row_of counts.old flow) < most_verdicts) }
    ensures { counts.new ≡ counts_after counts.old flow (verdict v) }
{
    counts[flow as usize][v.place()] += 1;
}
