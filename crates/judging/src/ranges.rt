// Settings in range (document 01, Settings, Refusals 2 and 18), on a route's words.
ghost use Rattle.std.specs.Prelude.{◌≡◌, ◌≤◌, length};
ghost use Rattle.state.specs.Bounds.{zero_from, settings_right};
ghost use Rattle.words.specs.Words.{settings_in};
ghost use Rattle.judging.specs.Unused.{rest_zero};

use words::{release_in, top_of};

// Whether the octets of a word from its u-th on are 0.
fn rest_zero(w: u32, u: usize) -> bool
    ensures { result ≡ rest_zero w u }
{
    match u {
        0 => w == 0,
        1 => w % 16777216 == 0,
        2 => w % 65536 == 0,
        3 => w % 256 == 0,
        _ => true,
    }
}

// Whether the filter's octets from n on are 0: from the last word down to the one in which the last octet that counts stands.
fn unused_zero(part: &[u32], n: usize) -> bool
    requires { 19 ≤ length part.now }
    ensures { result ≡ zero_from (settings_in part.now).filter n 20 }
{
    for k in (1..5).rev() {
        if 4 * k <= n {
            return rest_zero(part[k], n - 4 * k);
        }
        if part[k] != 0 {
            return false;
        }
    }
    rest_zero(part[0], n)
}

// Whether the settings of the route that these words begin with are in range. The filter is tested as words: laid out as octets
// first, it would be waited for.
pub fn settings_right(part: &[u32]) -> bool
    requires { 19 ≤ length part.now }
    ensures { result ≡ settings_right (settings_in part.now) }
{
    let octets = top_of(part[5]);
    let unused = unused_zero(part, usize::from(octets));
    let release = release_in(part[5]);
    let narrow = record::is_narrow_release(release);
    let flag = top_of(part[16]);
    let limit = part[6];
    (octets <= 20) & unused & (128 <= limit) & (limit <= 1048576) & (flag <= 1) & narrow
}
