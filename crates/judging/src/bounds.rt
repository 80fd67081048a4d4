// Refusal 18 (document 01, Refusals): whether a state is within its bounds.
ghost use Rattle.std.specs.Prelude.{◌≡◌, ◌≤◌};
ghost use Rattle.state.specs.Bounds.{route_right, routes_right, state_right};
ghost use Rattle.words.specs.Words.{route_in, manager_in};

use crate::below::all_below;
use crate::filters::are_distinct;
use crate::ranges::settings_right;
use crate::sets::sets_right;
use words::{RouteWords, Words, count_of, file_in, flag_of, route_words, settings_in};

// Whether the route that these words begin with is right. A closed route's file is not looked at.
fn route_right(last: u32, part: &RouteWords) -> bool
    ensures { result ≡ route_right last (route_in part.now) }
{
    let right = settings_right(part);
    let open = flag_of(part[13]);
    if !open {
        return right;
    }
    let s = settings_in(part);
    let f = file_in(part);
    let file = state::file_right(last, s, f);
    right & file
}

// Whether the routes below n are right.
pub fn routes_right(words: &Words, n: usize) -> bool
    requires { n ≤ 8 }
    ensures { result ≡ routes_right (manager_in words.now) n }
{
    let last = words[6];
    all_below(n, |i| route_right(last, route_words(words, i)))
}

// Whether the state is within its bounds. More routes than eight are told first, so that none is looked for that is not there.
pub fn state_right(words: &Words) -> bool
    ensures { result ≡ state_right (manager_in words.now) }
{
    let n = count_of(words);
    if 8 < n {
        return false;
    }
    let routes = routes_right(words, n);
    let filters = are_distinct(words, n);
    let sets = sets_right(words, n);
    (1 <= n) & (n <= 8) & (words[4] <= 2878) & (words[6] <= 52595999) & routes & filters & sets
}
