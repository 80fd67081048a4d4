// Routing (document 01, Routing and loss; document 02, ask 7): a key goes to the route with the longest filter that is a prefix of it, and the
// octets that are compared for that are counted. The key's octets are packed once, and filters are compared as words, up to the
// first octet that differs: laid out as octets first, they would be waited for.
#![tactic(auto)]

ghost use Rattle.std.specs.Prelude.{◌≡◌, false, ◌+◌, ◌≤◌, length, get_or};
ghost use Rattle.refusals.specs.Below.{leading};
ghost use Rattle.state.specs.Routing.{Routable, routed_of, fits, nobody, chosen, better, route_of};
ghost use Rattle.state.specs.Compared.{compared_with, compared_for};
ghost use Rattle.words.specs.Words.{settings_in, manager_in, four_at, five_words};
ghost use Rattle.routing.specs.Best.{best_of};
ghost use Rattle.routing.specs.Prefix.{same_in, Differs, SameBefore};

use state::Found;
use words::{RouteWords, Words, count_of, packed, route_words, top_of};

// What comparing a filter with a key says: whether it fits, and how many octets were compared.
#[derive(Clone, Copy)]
struct Compared {
    fits: bool,
    octets: u8,
}

// What routing found, and how many octets of filters were compared for it (document 01: counted comparisons, carried in the result).
#[derive(Clone, Copy)]
pub struct Counted {
    pub routed: Option<Found>,
    pub compared: u8,
}

// The best of the routes so far: whether one fits, which one, and how many octets its filter has. No `Option<Found>`, nor one of the
// place alone: in the loop over the routes that takes routing on eight routes a fifth to a third longer.
#[derive(Clone, Copy)]
struct Best {
    found: bool,
    at: u8,
    octets: u8,
}

// It, and how many octets were compared so far.
#[derive(Clone, Copy)]
struct Counting {
    best: Best,
    compared: u8,
}

// The octet k of a key, 0 where there is none.
fn octet_at(key: &[u8], k: usize) -> u8
    ensures { result ≡ get_or key.now k 0 }
{
    key.get(k).copied().unwrap_or(0)
}

// Its four octets from k on in a word. Where all are there, they are read at once.
fn key_word(key: &[u8], k: usize) -> u32
    requires { k ≤ 16 }
    ensures { result ≡ four_at key.now k }
{
    if k + 4 <= key.len() {
        return packed(key[k], key[k + 1], key[k + 2], key[k + 3]);
    }
    packed(
        octet_at(key, k),
        octet_at(key, k + 1),
        octet_at(key, k + 2),
        octet_at(key, k + 3),
    )
}

// Its first twenty octets.
fn key_words(key: &[u8]) -> [u32; 5]
    ensures { result ≡ five_words key.now }
{
    [
        key_word(key, 0),
        key_word(key, 4),
        key_word(key, 8),
        key_word(key, 12),
        key_word(key, 16),
    ]
}

// The first octet in which two words differ; looked for from the last on, since filters of one network differ late.
fn differs_at(w: u32, k: u32) -> u32
    requires { w ≡ k → ⊥ }
    ensures { Differs w k result }
{
    if w / 256 == k / 256 {
        return 3;
    }
    if w / 65536 == k / 65536 {
        return 2;
    }
    if w / 16777216 == k / 16777216 {
        return 1;
    }
    0
}

// How many of the first n octets are the same, where the words before `from` octets are and the next two, w and k, are not.
fn same_before(w: u32, k: u32, from: u32, n: u32) -> u32
    requires { (w ≡ k → ⊥) × (from ≤ 16) }
    ensures { SameBefore w k from n result }
{
    n.min(from + differs_at(w, k))
}

// How many of the first n octets of five words are those of five others, from the first on: word by word, up to the first that
// differs, or the one in which the last of them stands.
fn same_first(part: &RouteWords, five: &[u32; 5], n: u32) -> u32
    requires { n ≤ 20 }
    ensures { result ≡ leading (same_in part.now five.now) n }
{
    for i in 0..5 {
        let from = 4 * i as u32;
        if part[i] != five[i] {
            return same_before(part[i], five[i], from, n);
        }
        if n <= from + 4 {
            return n;
        }
    }
    n
}

// Compares the filter of the route of these words and the key, of which `five` are the words. A filter that is longer than
// the key is not looked at. Key and words go side by side through two functions: a struct of both, with that fact, is no plainer.
fn compare(part: &RouteWords, key: &[u8], five: &[u32; 5]) -> Compared
    requires { ((settings_in part.now).octets ≤ 20) × (five.now ≡ five_words key.now) }
    ensures { (result.fits ≡ fits (settings_in part.now) key.now) × (result.octets ≡ compared_with (settings_in part.now) key.now) }
{
    let octets = top_of(part[5]);
    if key.len() < octets as usize {
        return Compared {
            fits: false,
            octets: 0,
        };
    }
    let same = same_first(part, five, octets as u32);
    if same < octets as u32 {
        return Compared {
            fits: false,
            octets: same as u8 + 1,
        };
    }
    Compared { fits: true, octets }
}

// The better of the route found so far and route i, whose filter has so many octets and fits or not.
fn better_of(b: Best, i: u8, octets: u8, fit: bool) -> Best
    ensures { best_of result ≡ chosen (best_of b) i octets fit }
{
    if fit & (!b.found | (b.octets < octets)) {
        Best {
            found: true,
            at: i,
            octets,
        }
    } else {
        b
    }
}

// What routing has found with route i too, whose words these are.
fn counted_with(c: Counting, i: u8, part: &RouteWords, key: &[u8], five: &[u32; 5]) -> Counting
    requires { ((settings_in part.now).octets ≤ 20) × (five.now ≡ five_words key.now) × (c.compared ≤ 140) }
    ensures { (best_of result.best ≡ better (best_of c.best) i (settings_in part.now) key.now) × (result.compared ≡ c.compared + compared_with (settings_in part.now) key.now) }
{
    let filter = compare(part, key, five);
    Counting {
        best: better_of(c.best, i, top_of(part[5]), filter.fits),
        compared: c.compared + filter.octets,
    }
}

// The best of all routes as the route found, if any.
fn found_in(b: Best) -> Option<Found>
    requires { b.found ≡ false → best_of b ≡ nobody }
    ensures { routed_of result ≡ best_of b }
{
    if b.found {
        Some(Found {
            at: b.at,
            octets: b.octets,
        })
    } else {
        None
    }
}

// The route that a key goes to, and how many octets of filters were compared for that.
pub fn route_of(words: &Words, key: &[u8]) -> Counted
    requires { Routable (manager_in words.now) }
    ensures { (routed_of result.routed ≡ route_of (manager_in words.now) key.now) × (result.compared ≡ compared_for (manager_in words.now) key.now) }
{
    let five = key_words(key);
    let nobody = Best {
        found: false,
        at: 0,
        octets: 0,
    };
    let mut c = Counting {
        best: nobody,
        compared: 0,
    };
    for i in 0..count_of(words) {
        c = counted_with(c, i as u8, route_words(words, i), key, &five);
    }
    Counted {
        routed: found_in(c.best),
        compared: c.compared,
    }
}
