// Words and numbers laid on a page from a place on; what is answered is where they end.
ghost use Rattle.std.specs.Prelude.{◌+◌, ◌≤◌, length, [], ◌∷◌};
ghost use Rattle.numerals.specs.Decimal.{width, decimal};
ghost use Rattle.numerals.specs.Hexadecimal.{hex_of};
ghost use Rattle.wording.specs.Laid.{Laid};
ghost use Rattle.wording.specs.Numbered.{start, numbered};

use numerals::{hex_digit, put_decimal, width_of};

pub fn lay(page: &mut [u8], at: usize, words: &[u8]) -> usize
    requires { at + length words.now ≤ length page.old }
    ensures { Laid page.old at words.now page.new result }
{
    octets::copy(page, at, words);
    at + words.len()
}

pub fn lay_number(page: &mut [u8], at: usize, n: u32) -> usize
    requires { at + 10 ≤ length page.old }
    ensures { Laid page.old at (decimal n) page.new result × (result ≤ at + 10) }
{
    put_decimal(n, page, at);
    at + width_of(n)
}

// A number, before its words.
pub fn lay_start(page: &mut [u8], at: usize, n: u32) -> usize
    requires { at + 12 ≤ length page.old }
    ensures { Laid page.old at (start n) page.new result × (result ≤ at + 12) }
{
    let a = lay_number(page, at, n);
    lay(page, a, b", ")
}

// A number and its words.
pub fn lay_numbered(page: &mut [u8], at: usize, n: u32, words: &[u8]) -> usize
    requires { at + (12 + length words.now) ≤ length page.old }
    ensures { Laid page.old at (numbered n words.now) page.new result }
{
    let a = lay_start(page, at, n);
    lay(page, a, words)
}

fn lay_octet(page: &mut [u8], at: usize, octet: u8) -> usize
    requires { at + 2 ≤ length page.old }
    ensures { Laid page.old at (hex_of (octet ∷ [])) page.new result }
{
    let digits = [hex_digit(octet / 16), hex_digit(octet % 16)];
    lay(page, at, &digits)
}

// Octets as their digits.
pub fn lay_octets(page: &mut [u8], at: usize, octets: &[u8]) -> usize
    requires { at + (length octets.now + length octets.now) ≤ length page.old }
    ensures { Laid page.old at (hex_of octets.now) page.new result }
{
    let mut end = at;
    for octet in octets {
        end = lay_octet(page, end, *octet);
    }
    end
}
