// Set minutes (document 02, ask 6, Refusals 18 and 22): a route has at most 24, each of a day, rising.
ghost use Rattle.std.specs.Prelude.{◌≡◌, ◌≤◌, ◌<◌};
ghost use Rattle.state.specs.SetTimes.{set_minute, minute_right, set_right_at, sets_right, no_sets};
ghost use Rattle.words.specs.Words.{manager_in};

use crate::below::all_below;
use words::{Words, set_count, set_minute};

// Whether the j-th set minute of route i is one of a day, and later than the one before it.
fn minute_right(words: &Words, i: usize, j: usize) -> bool
    requires { (i < 8) × (j < 24) }
    ensures { result ≡ minute_right (set_minute (manager_in words.now).set_times i) j }
{
    let minute = set_minute(words, i, j);
    if j == 0 {
        return minute <= 1439;
    }
    let before = set_minute(words, i, j - 1);
    (minute <= 1439) & (before < minute)
}

// Whether route i's set minutes are right. More than 24 are told first, so that none is looked for that is not there.
fn set_right(words: &Words, i: usize) -> bool
    requires { i < 8 }
    ensures { result ≡ set_right_at (manager_in words.now).set_times i }
{
    let n = set_count(words, i);
    if 24 < n {
        return false;
    }
    all_below(n, |j| minute_right(words, i, j))
}

// Whether none of the eight routes has any.
fn are_none(words: &Words) -> bool
    ensures { result ≡ no_sets (manager_in words.now).set_times }
{
    all_below(8, |i| words[160 + i] == 0)
}

// Whether those of the routes below n are right. As a rule nobody has any, which eight words tell.
pub fn sets_right(words: &Words, n: usize) -> bool
    requires { n ≤ 8 }
    ensures { result ≡ sets_right (manager_in words.now).set_times n }
{
    if are_none(words) {
        return true;
    }
    all_below(n, |i| set_right(words, i))
}
