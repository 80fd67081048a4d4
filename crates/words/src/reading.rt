// What the words say: a route's settings and file, the node's address.
ghost use Rattle.std.specs.Prelude.{◌≡◌, ◌+◌, ◌*◌, ◌≤◌, ◌<◌, length, take, drop};
ghost use Rattle.std.specs.List.{flat_map};
ghost use Rattle.state.specs.Manager.{route_at, settings_at, node_of};
ghost use Rattle.state.specs.SetTimes.{set_count, set_minute};
ghost use Rattle.words.specs.Words.{octet1, release_in, flag_of, rest_of, filter_in, address_in, settings_in, file_in, route_in, manager_in};

use crate::{RouteWords, Words};
use record::Release;
use state::{Node, OpenFile, Route, RouteSettings};

// The highest octet of a word.
pub fn top_of(w: u32) -> u8
    ensures { result ≡ octet1 w }
{
    (w >> 24) as u8
}

// The release in the other three.
pub fn release_in(w: u32) -> Release
    ensures { result ≡ release_in w }
{
    let [_, release, extension, version] = w.to_be_bytes();
    Release {
        release,
        extension,
        version,
    }
}

// Bit 31.
pub(crate) const FLAG: u32 = 1 << 31;

// Bit 31 of a word, and the number below it.
pub fn flag_of(w: u32) -> bool
    ensures { result ≡ flag_of w }
{
    FLAG <= w
}

fn rest_of(w: u32) -> u32
    ensures { (result ≡ rest_of w) × (result < 2147483648) }
{
    if flag_of(w) { w - FLAG } else { w }
}

// Octets in fours, one behind another.
fn joined<const N: usize>(fours: &[[u8; 4]]) -> [u8; N]
    requires { length fours.now * 4 ≡ N }
    ensures { result ≡ flat_map (λ four. four) fours.now }
{
    let mut octets = [0; N];
    octets.copy_from_slice(fours.as_flattened());
    octets
}

// The octets of a filter, from five words.
fn filter_in(a: u32, b: u32, c: u32, d: u32, e: u32) -> [u8; 20]
    ensures { result ≡ filter_in a b c d e }
{
    joined(&[a, b, c, d, e].map(u32::to_be_bytes))
}

// The octets of an address, from four.
fn address_in(a: u32, b: u32, c: u32, d: u32) -> [u8; 16]
    ensures { result ≡ address_in a b c d }
{
    joined(&[a, b, c, d].map(u32::to_be_bytes))
}

// What the words of a route say, which others may follow: its settings.
pub fn settings_in(part: &[u32]) -> RouteSettings
    requires { 19 ≤ length part.now }
    ensures { result ≡ settings_in part.now }
{
    RouteSettings {
        filter: filter_in(part[0], part[1], part[2], part[3], part[4]),
        octets: top_of(part[5]),
        limit: part[6],
        age: part[7],
        most: part[8],
        flag: top_of(part[16]),
        release: release_in(part[5]),
    }
}

// Its file.
pub fn file_in(part: &[u32]) -> OpenFile
    requires { 19 ≤ length part.now }
    ensures { (result ≡ file_in part.now) × (result.opened < 2147483648) }
{
    OpenFile {
        sequence: part[12],
        opened: rest_of(part[13]),
        appended: part[14],
        high: release_in(part[15]),
        low: release_in(part[16]),
        format: top_of(part[15]),
        count: part[17],
        octets: part[18],
    }
}

// The route itself.
#[tactic(auto, unfolding(crate::specs::Words::route_in))]
pub fn route_in(part: &[u32]) -> Route
    requires { 19 ≤ length part.now }
    ensures { (result ≡ route_in part.now) × (result.file.opened < 2147483648) }
{
    Route {
        settings: settings_in(part),
        next: part[9],
        losses: part[10],
        unrouted: part[11],
        open: flag_of(part[13]),
        file: file_in(part),
    }
}

// The words of the route i. That `i` is below 8 is a clause here and in the crates above, and no type of its own: as a rule it is a loop's own
// number, of which the check finds that alone, and a struct would be made of it at each turn only to be taken apart.
pub fn route_words(words: &Words, i: usize) -> &RouteWords
    requires { i < 8 }
    ensures { result.now ≡ take 19 (drop (8 + 19 * i) words.now) }
{
    let (routes, _) = words[8..160].as_chunks::<19>();
    &routes[i]
}

// The route i, whose opening has its flag taken off; and its settings alone.
#[tactic(auto, using(crate::specs::Laws::route_there))]
pub fn route_at(words: &Words, i: usize) -> Route
    requires { i < 8 }
    ensures { (result ≡ route_at (manager_in words.now) i) × (result.file.opened < 2147483648) }
{
    route_in(route_words(words, i))
}

#[tactic(auto, using(crate::specs::Laws::settings_there))]
pub fn settings_at(words: &Words, i: usize) -> RouteSettings
    requires { i < 8 }
    ensures { result ≡ settings_at (manager_in words.now) i }
{
    settings_in(route_words(words, i))
}

// How many routes are configured.
#[tactic(auto, unfolding(crate::specs::Words::manager_in))]
pub fn count_of(words: &Words) -> usize
    ensures { result ≡ (manager_in words.now).count }
{
    words[5] as usize
}

// The node: its address from four words, and its offset.
#[tactic(auto, unfolding(crate::specs::Words::manager_in))]
pub fn node_of(words: &Words) -> Node
    ensures { result ≡ node_of (manager_in words.now) }
{
    Node {
        address: address_in(words[0], words[1], words[2], words[3]),
        bias: words[4],
    }
}

// How many set minutes route i has, and the j-th of them.
#[tactic(auto, using(crate::specs::Sets::set_count_in))]
pub fn set_count(words: &Words, i: usize) -> usize
    requires { i < 8 }
    ensures { result ≡ set_count (manager_in words.now).set_times i }
{
    words[160 + i] as usize
}

#[tactic(auto, using(crate::specs::Sets::set_minute_in))]
pub fn set_minute(words: &Words, i: usize, j: usize) -> u32
    requires { (i < 8) × (j < 24) }
    ensures { result ≡ set_minute (manager_in words.now).set_times i j }
{
    words[168 + 24 * i + j]
}
