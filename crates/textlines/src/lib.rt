// Programs that answer lines: lines taken from standard input, the words of a line, and a page for the lines that are printed.
#![tactic(auto)]

ghost use Rattle.std.specs.Prelude.{◌≡◌, ◌+◌, ◌-◌, ◌≤◌, ◌<◌, [], length, take, drop};

mod lines;
mod page;
mod words;

pub use lines::{LINES, Lines, Wrong};
pub use page::{Digits, Page};
pub use words::{Words, number_of};

// The `count` octets from `from` on, or none where these do not all stand there.
pub fn part(octets: &[u8], from: usize, count: usize) -> &[u8]
    ensures no_more { length result.now ≤ length octets.now - from }
    ensures all_there { from + count ≤ length octets.now → result.now ≡ take count (drop from octets.now) }
    ensures beyond { length octets.now < from + count → result.now ≡ [] }
{
    match octets.get(from..) {
        Some(rest) => rest.get(..count).unwrap_or_default(),
        None => &[],
    }
}

// The memory of a run: so many zeros. They are a function's result, so that no proof counts them one by one where they are lent.
pub fn zeros<const N: usize>() -> [u8; N] {
    [0; N]
}
