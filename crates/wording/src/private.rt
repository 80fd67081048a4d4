// A private extension in words.
ghost use Rattle.std.specs.Prelude.{◌≡◌, ◌+◌, ◌≤◌, length};
ghost use Rattle.counts.specs.Counts.{counts_in};
ghost use Rattle.numerals.specs.Hexadecimal.{hex_of};
ghost use Rattle.wording.specs.Laid.{Laid};
ghost use Rattle.wording.specs.Private.{counts_words, some_words, private_words};

use crate::laying::{lay, lay_number, lay_octets};
use counts::Counts;

// The loss counts, where there are some, or else the octets.
fn lay_counts(page: &mut [u8], at: usize, c: Counts, private: &[u8]) -> usize
    requires { at + (60 + (length private.now + length private.now)) ≤ length page.old }
    ensures { Laid page.old at (counts_words c (hex_of private.now)) page.new result }
{
    if c.there {
        let a = lay(page, at, b"known losses ");
        let b = lay_number(page, a, c.losses);
        let d = lay(page, b, b", unrouted records ");
        return lay_number(page, d, c.unrouted);
    }
    lay_octets(page, at, private)
}

// How many octets there are, and what they say.
fn lay_some(page: &mut [u8], at: usize, private: &[u8]) -> usize
    requires { (at + (100 + (length private.now + length private.now)) ≤ length page.old) × (length private.now ≤ 1048576) }
    ensures { Laid page.old at (some_words private.now) page.new result }
{
    let a = lay_number(page, at, private.len() as u32);
    let b = lay(page, a, b" octets, ");
    lay_counts(page, b, counts::read(private), private)
}

// The words of an extension by the header's statement, 0 none and 1 empty. Its digits need room too, two for an octet.
pub fn lay_private(page: &mut [u8], at: usize, statement: u8, private: &[u8]) -> usize
    requires { (at + (128 + (length private.now + length private.now)) ≤ length page.old) × (length private.now ≤ 1048576) }
    ensures { Laid page.old at (private_words statement private.now) page.new result }
{
    match statement {
        0 => lay(page, at, b"none"),
        1 => lay(page, at, b"empty"),
        _ => lay_some(page, at, private),
    }
}
