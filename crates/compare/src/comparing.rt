// The comparison.
ghost use Rattle.std.specs.Prelude.{◌≡◌, ◌+◌, ◌*◌, ◌≤◌, length};
ghost use Rattle.call_log.specs.Layout.{records_from};
ghost use Rattle.call_log.specs.Whole.{read_whole};
ghost use Rattle.compare.specs.Compare.{compare as compare_by, compare_contents, compare_records, with_second};
ghost use Rattle.compare.specs.Values.{comparison_of, contents_in};

use crate::Compared;
use call_log::Writer;

// Records from `offset` on, `count` of the first log and `others` of the second.
fn compare_records(first: &[u8], second: &[u8], offset: usize, count: u64, others: u64) -> Compared
    requires { (offset + 40 * count ≤ length first.now) × (offset + 40 * others ≤ length second.now) }
    ensures { comparison_of result
        ≡ compare_records 0 (records_from count first.now offset) (records_from others second.now offset) }
{
    for number in 0..count {
        if others <= number {
            return Compared::SecondEnds(number, count - number);
        }
        let at = offset + 40 * number as usize;
        let equal = log_codec::get(first, at) == log_codec::get(second, at);
        if !equal {
            return Compared::RecordDiffers(number);
        }
    }
    if count < others {
        return Compared::FirstEnds(count, others - count);
    }
    Compared::Equal(count)
}

// Two logs that are read whole, each with its offset and count.
fn compare_whole(first: &[u8], second: &[u8], a: Writer, b: Writer) -> Compared
    requires first_log { (32 ≤ a.offset) × (length first.now ≡ a.offset + 40 * a.count + 16) }
    requires second_log { (32 ≤ b.offset) × (length second.now ≡ b.offset + 40 * b.count + 16) }
    ensures { comparison_of result
        ≡ compare_contents (contents_in first.now a) (contents_in second.now b) }
{
    let alike = log_codec::get_header(first, 0) == log_codec::get_header(second, 0);
    if !alike {
        return Compared::SettingsDiffer;
    }
    let noted = first[32..a.offset as usize] == second[32..b.offset as usize];
    if !noted {
        return Compared::NotesDiffer;
    }
    compare_records(
        first,
        second,
        a.offset as usize,
        a.count as u64,
        b.count as u64,
    )
}

// The first log is read whole, with this offset and count; the second is read.
fn compare_with(first: &[u8], second: &[u8], a: Writer) -> Compared
    requires { (32 ≤ a.offset) × (length first.now ≡ a.offset + 40 * a.count + 16) }
    ensures { comparison_of result ≡ with_second (contents_in first.now a) (read_whole second.now) }
{
    match call_log::check(second) {
        Ok(b) => compare_whole(first, second, a, b),
        Err(refusal) => Compared::RefusedSecond(refusal),
    }
}

pub fn compare(first: &[u8], second: &[u8]) -> Compared
    ensures { comparison_of result ≡ compare_by first.now second.now }
{
    match call_log::check(first) {
        Ok(a) => compare_with(first, second, a),
        Err(refusal) => Compared::RefusedFirst(refusal),
    }
}
