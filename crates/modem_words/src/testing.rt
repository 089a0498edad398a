// The one test of a flow's record and its row.
ghost use Rattle.std.specs.Prelude.{◌≡◌, ◌&&◌, not, true, length};
ghost use Rattle.modem_flow.specs.State.{well_formed};
ghost use Rattle.modem.specs.Calls.{flow_refused};
ghost use Rattle.modem.specs.Counts.{row_of};
ghost use Rattle.modem_words.specs.Words.{state_of};

use crate::records::decode;
use modem::row_of;

// Whether the flow is one of sixteen, and its record and row are well formed.
pub fn record_fits(words: &[u64; 16], counts: &[[u64; 5]; 16], flow: u32) -> bool
    ensures value { result ≡ (not (flow_refused flow) && well_formed (state_of words.now) (row_of counts.now flow)) }
    ensures words_len { (result ≡ true) → length words.now ≡ 16 }
{
    match row_of(flow as u64) {
        Ok(row) => decode(*words).well_formed(counts[row]),
        Err(_) => false,
    }
}
