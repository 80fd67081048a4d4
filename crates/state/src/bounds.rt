// Refusal 18 (document 01, Refusals), of one route: whether its file is within its bounds. Sums that may exceed 32
// bits are taken in 64.
ghost use Rattle.std.specs.Prelude.{◌≡◌};
ghost use Rattle.refusals.specs.Tests.{all_of};
ghost use Rattle.state.specs.Bounds.{file_right};
ghost use Rattle.state.specs.Empty.{common_tests, empty_tests};

use crate::size::header_size;
use crate::{OpenFile, RouteSettings};

// Whether an open file passes the tests that are made of every file, in the definition's order.
fn common_right(last: u32, s: RouteSettings, f: OpenFile) -> bool
    ensures { result ≡ all_of (common_tests last s f) }
{
    let high = record::rank_of(f.high);
    let low = record::rank_of(f.low);
    let narrow_high = record::is_narrow_release(f.high);
    let narrow_low = record::is_narrow_release(f.low);
    let header = header_size(s.octets, f.high, f.low);
    (f.opened <= f.appended)
        & (f.appended <= last)
        & (low <= high)
        & ((s.flag == 0) | (low == high))
        & narrow_high
        & narrow_low
        & (f.format <= 7)
        & (header as u64 + f.octets as u64 <= s.limit as u64)
        & (4 * (f.count as u64) <= f.octets as u64)
        & ((s.most == 0) | (f.count < s.most))
}

// Whether an open file without records is as it was opened.
fn empty_right(s: RouteSettings, f: OpenFile) -> bool
    ensures { result ≡ all_of (empty_tests s f) }
{
    let high = record::rank_of(f.high);
    let low = record::rank_of(f.low);
    let configured = record::rank_of(s.release);
    (f.octets == 0) & (f.appended == f.opened) & (high == configured) & (low == configured)
}

// Whether an open file of a route with these settings is right at a last time. Few files are empty: the tests of one are behind a branch.
#[tactic(auto, using(crate::specs::Empty::file_held, crate::specs::Empty::file_empty))]
pub fn file_right(last: u32, s: RouteSettings, f: OpenFile) -> bool
    ensures { result ≡ file_right last s f }
{
    let common = common_right(last, s, f);
    if f.count != 0 {
        return common;
    }
    let empty = empty_right(s, f);
    common & empty
}
