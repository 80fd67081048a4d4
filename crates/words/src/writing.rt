// The words that an event changes.
ghost use Rattle.std.specs.Prelude.{◌≡◌, [], ◌+◌, ◌*◌, ◌<◌, set};
ghost use Rattle.octets.specs.Splice.{splice};
ghost use Rattle.words.specs.Words.{packed, with_release, flagged, changing_words};

use crate::Words;
use crate::reading::FLAG;
use record::Release;
use state::Route;

// A number below bit 31, with a flag in that bit.
fn flagged(b: bool, n: u32) -> u32
    requires { n < 2147483648 }
    ensures { result ≡ flagged b n }
{
    if b { n + FLAG } else { n }
}

// Four octets in a word, the first the highest.
pub fn packed(a: u8, b: u8, c: u8, d: u8) -> u32
    ensures { result ≡ packed a b c d }
{
    u32::from_be_bytes([a, b, c, d])
}

// An octet and a release in a word.
fn with_release(top: u8, r: Release) -> u32
    ensures { result ≡ with_release top r }
{
    packed(top, r.release, r.extension, r.version)
}

// The ten words of a route that an event may change.
fn changing_words(r: Route) -> [u32; 10]
    requires { r.file.opened < 2147483648 }
    ensures { result ≡ changing_words r [] }
{
    let f = r.file;
    let s = r.settings;
    [
        r.next,
        r.losses,
        r.unrouted,
        f.sequence,
        flagged(r.open, f.opened),
        f.appended,
        with_release(f.format, f.high),
        with_release(s.flag, f.low),
        f.count,
        f.octets,
    ]
}

// Puts a route, whose settings are as they were, in the place of the route i. That its opening leaves bit 31 free is a clause and no invariant of
// `OpenFile`: `events::opened_route` opens a file at any time, and asks nothing of it.
pub fn put_route(words: &mut Words, i: usize, r: Route)
    requires { (i < 8) × (r.file.opened < 2147483648) }
    ensures { words.new ≡ splice words.old (17 + 19 * i) (changing_words r []) }
{
    octets::copy(words, 17 + 19 * i, &changing_words(r));
}

// The same, and the time t as the last one.
pub fn put(words: &mut Words, i: usize, r: Route, t: u32)
    requires { (i < 8) × (r.file.opened < 2147483648) }
    ensures { words.new ≡ set (splice words.old (17 + 19 * i) (changing_words r [])) 6 t }
{
    put_route(words, i, r);
    words[6] = t;
}
