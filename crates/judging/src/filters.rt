// Filters that differ (document 01, Refusals 3 and 18): no two configured routes have the same.
ghost use Rattle.std.specs.Prelude.{◌≡◌, ◌+◌, ◌≤◌, ◌<◌};
ghost use Rattle.state.specs.Manager.{settings_at};
ghost use Rattle.state.specs.Bounds.{same_filter, new_to, distinct};
ghost use Rattle.words.specs.Words.{settings_in, manager_in};
ghost use Rattle.judging.specs.Sums.{filter_sum, new_sum, distinct_sums};

use crate::below::all_below;
use words::{RouteWords, Words, route_words, top_of};

// Whether the routes that these words begin with have the same filter: as long, and the same words.
fn same_filter(a: &RouteWords, b: &RouteWords) -> bool
    ensures { result ≡ same_filter (settings_in a.now) (settings_in b.now) }
{
    (top_of(a[5]) == top_of(b[5])) & (a[..5] == b[..5])
}

// Whether no route below n has the filter of route i.
fn is_new(words: &Words, i: usize, n: usize) -> bool
    requires { (i < 8) × (n ≤ 8) }
    ensures { result ≡ new_to (manager_in words.now) (settings_at (manager_in words.now) i) n }
{
    let of = route_words(words, i);
    all_below(n, |j| !same_filter(route_words(words, j), of))
}

// The sum of the filter of the route that these words begin with, which 64 bits hold.
fn filter_sum(part: &RouteWords) -> u64
    ensures { result ≡ filter_sum part.now }
{
    part[..5].iter().map(|&word| word as u64).sum()
}

// Whether none of the sums below n is s.
fn is_new_sum(sums: &[u64; 8], s: u64, n: usize) -> bool
    requires { n ≤ 8 }
    ensures { result ≡ new_sum sums.now s n }
{
    all_below(n, |j| sums[j] != s)
}

// Whether no two of the routes below n have the same sum. Each is compared with those before it as soon as it is known: all laid out first,
// they would be waited for.
fn are_sums_distinct(words: &Words, n: usize) -> bool
    requires { n ≤ 8 }
    ensures { result ≡ distinct_sums words.now n }
{
    let mut sums = [0u64; 8];
    let mut differ = true;
    for i in 0..n {
        let sum = filter_sum(route_words(words, i));
        differ &= is_new_sum(&sums, sum, i);
        sums[i] = sum;
    }
    differ
}

// Whether no two of the routes below n have equal filters. One has none to be equal to. As a rule a number of each tells: only where two
// are equal are the filters compared.
#[tactic(auto, using(crate::specs::Sums::one_distinct))]
pub fn are_distinct(words: &Words, n: usize) -> bool
    requires { n ≤ 8 }
    ensures { result ≡ distinct (manager_in words.now) n }
{
    if n < 2 {
        return true;
    }
    if are_sums_distinct(words, n) {
        return true;
    }
    all_below(n, |i| is_new(words, i, i))
}
