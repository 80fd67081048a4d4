// Settings octets to a fresh manager, or refusal 1, 2, 3 or 22.
#![tactic(auto)]

mod sets;

ghost use Rattle.std.specs.Prelude.{◌≡◌, [], ◌+◌, ◌*◌, ◌≤◌, length};
ghost use Rattle.octets.specs.Number.{octets_at};
ghost use Rattle.words.specs.Words.{five_words, route_words, node_words, manager_in, words_of};
ghost use Rattle.settings.specs.Settings.{routes_in, wrong_shape, route_from, node_from, manager_with, route_start, loaded_of};
ghost use Rattle.settings.specs.Cases.{loaded_from};
ghost use Rattle.settings.specs.Held.{out_of_range};

use refusals::Refusal;
use words::{RouteWords, Words};

// The answer: refusal 0 with a fresh manager's words; or 1, 2, 3 or 22 with the words of the one state that every event answers with 18.
// C reads this struct: a number and no enum.
#[repr(C)]
#[derive(Clone, Copy)]
pub struct Loaded {
    pub refusal: u8,
    pub words: [u32; 360],
}

// How many routes stand one behind another, up to eight.
fn routes_in(octets: &[u8]) -> usize
    ensures { (result ≡ routes_in octets.now) × (result ≤ 8) }
{
    for n in 0..8 {
        if octets.get(19 + 41 * n) != Some(&2) {
            return n;
        }
    }
    8
}

// Settings' octets, and how many routes they have.
#[derive(Clone, Copy)]
struct Settings<'a> {
    octets: &'a [u8],
    routes: usize,
    ghost counted: { routes ≡ routes_in octets.now },
    ghost most: { routes ≤ 8 },
}

impl Settings<'_> {
    // Refusal 1: unknown kind, cut, wrong order or count.
    fn has_wrong_shape(&self) -> bool
        ensures { result ≡ wrong_shape self.now.octets.now }
    {
        let octets = self.octets;
        if self.routes == 0 {
            return true;
        }
        let at = 19 + 41 * self.routes;
        if octets.len() < at {
            return true;
        }
        let k = (octets.len() - at) / 4;
        if octets.len() != at + 4 * k {
            return true;
        }
        (octets[0] != 1) | !judging::all_below(k, |j| octets[at + 4 * j] == 3)
    }

    // The words of their fresh manager, without set times.
    fn fresh_words(&self) -> Words
        requires { route_start self.now.routes ≤ length self.now.octets.now }
        ensures { result ≡ words_of (manager_with self.now.octets.now self.now.routes 0) }
    {
        let octets = self.octets;
        let mut words = [0u32; 360];
        for i in 0..self.routes {
            let route = route_words(octets, 19 + 41 * i);
            octets::copy(&mut words, 8 + 19 * i, &route);
        }
        let node = node_words(octets, self.routes as u32);
        octets::copy(&mut words, 0, &node);
        words
    }
}

// The five words of the filter whose octets start at `k`.
fn filter_words(octets: &[u8], k: usize) -> [u32; 5]
    requires { k + 20 ≤ length octets.now }
    ensures { result ≡ five_words (octets_at 20 octets.now k) }
{
    let a = octets::num::<4>(octets, k);
    let b = octets::num::<4>(octets, k + 4);
    let c = octets::num::<4>(octets, k + 8);
    let d = octets::num::<4>(octets, k + 12);
    let e = octets::num::<4>(octets, k + 16);
    [a, b, c, d, e]
}

// The words of the fresh route whose octets start at `k`: nothing is open, lost or unrouted.
fn route_words(octets: &[u8], k: usize) -> RouteWords
    requires { k + 41 ≤ length octets.now }
    ensures { result ≡ route_words (route_from octets.now k) [] }
{
    let release = octets[k + 35] / 32;
    let version = octets[k + 35] % 32;
    let configured = words::packed(octets[k + 1], release, octets[k + 36], version);
    let flag = words::packed(octets[k + 34], 0, 0, 0);
    let f = filter_words(octets, k + 2);
    let limit = octets::num::<4>(octets, k + 22);
    let age = octets::num::<4>(octets, k + 26);
    let most = octets::num::<4>(octets, k + 30);
    let next = octets::num::<4>(octets, k + 37);
    [
        f[0], f[1], f[2], f[3], f[4], configured, limit, age, most, next, 0, 0, 0, 0, 0, 0, flag,
        0, 0,
    ]
}

// The words of the node, and of so many routes.
fn node_words(octets: &[u8], count: u32) -> [u32; 6]
    requires { 19 ≤ length octets.now }
    ensures { result ≡ node_words (node_from octets.now) count [] }
{
    let a = octets::num::<4>(octets, 1);
    let b = octets::num::<4>(octets, 5);
    let c = octets::num::<4>(octets, 9);
    let d = octets::num::<4>(octets, 13);
    let bias = octets::num::<2>(octets, 17);
    [a, b, c, d, bias, count]
}

// Refusal 2, by the words of `n` routes: a value beyond its range.
fn beyond_range(words: &Words, n: usize) -> bool
    requires { n ≤ 8 }
    ensures { result ≡ out_of_range (manager_in words.now) n }
{
    let right = judging::routes_right(words, n);
    (2878 < words[4]) | !right
}

// A fresh manager's words from any octets, or the first of 1, 2, 3 and 22 in order. They are made first: 2 and 3 are told by what tells 18.
fn fresh(octets: &[u8]) -> Result<Words, Refusal>
    ensures { loaded_from result ≡ loaded_of octets.now }
{
    let routes = routes_in(octets);
    let settings = Settings { octets, routes };
    if settings.has_wrong_shape() {
        return Err(Refusal::Shape);
    }
    let mut words = settings.fresh_words();
    if beyond_range(&words, routes) {
        return Err(Refusal::Range);
    }
    if !judging::are_distinct(&words, routes) {
        return Err(Refusal::Filters);
    }
    settings.put_sets(&mut words)?;
    Ok(words)
}

// A fresh manager from any octets, or its refusal with the words of the one state that goes with it, which are zeros.
pub fn load(octets: &[u8]) -> Loaded
    ensures { result ≡ loaded_of octets.now }
{
    match fresh(octets) {
        Ok(words) => Loaded { refusal: 0, words },
        Err(refusal) => Loaded {
            refusal: refusal.number(),
            words: [0; 360],
        },
    }
}
