// The lines that are printed. They are collected on a page, which is written to standard output when it is full.
ghost use Rattle.std.specs.Prelude.{◌≡◌, ◌+◌, ◌-◌, ◌^◌, ◌≤◌, ◌<◌, length, take, drop};
ghost use Rattle.numerals.specs.Decimal.{digits};
ghost use Rattle.numerals.specs.Hexadecimal.{hex_of};

use crate::lines::Wrong;
use numerals::hex_digit;
use std::fmt::{self, Display, Write};
use std::io::Stdout;

// Where a full page is written, its octets, how many of them are filled, whether every page so far was written, and whether it is read along. The octets
// are lent and no `Vec`: each program has fixed memory.
#[derive(Drop)]
pub struct Page<'a> {
    stdout: Stdout,
    octets: &'a mut [u8],
    filled: usize,
    works: bool,
    is_read_along: bool,
}

impl<'a> Page<'a> {
    pub fn new(stdout: Stdout, octets: &'a mut [u8]) -> Page<'a> {
        Page {
            stdout,
            octets,
            filled: 0,
            works: true,
            is_read_along: false,
        }
    }

    // The same page, written out also where no other line has come yet, so that a pipe can be read along.
    pub fn read_along(mut self) -> Page<'a> {
        self.is_read_along = true;
        self
    }

    pub fn is_read_along(&self) -> bool
        ensures { result ≡ self.now.is_read_along }
    {
        self.is_read_along
    }

    // Whether every page so far was written.
    pub fn works(&self) -> bool
        ensures { result ≡ self.now.works }
    {
        self.works
    }

    // Writes out what stands on the page.
    pub fn flush(&mut self) {
        let (stdout, filled) = (self.stdout, self.filled);
        let octets = self.octets.get(..filled).unwrap_or_default();
        self.works &= streams::write_all(stdout, octets);
        self.filled = 0;
    }

    // Puts an octet behind the others, or first on the next page.
    pub fn put(&mut self, octet: u8) {
        if self.octets.len() <= self.filled {
            self.flush();
        }
        let filled = self.filled;
        if let Some(place) = self.octets.get_mut(filled) {
            *place = octet;
            self.filled = filled + 1;
        }
    }

    // Puts octets behind the others, if the page has room for them all, and answers whether it has.
    fn put_here(&mut self, octets: &[u8]) -> bool {
        let (filled, count) = (self.filled, octets.len());
        let Some(room) = self.octets.get_mut(filled..) else {
            return false;
        };
        let Some(place) = room.get_mut(..count) else {
            return false;
        };
        place.copy_from_slice(octets);
        self.filled = filled + count;
        true
    }

    // Fills the page with the first of the octets, and puts the others on the next one, and so on. Few pieces come here, so it is kept out of `put_all`.
    #[cold]
    fn put_across(&mut self, octets: &[u8]) {
        let room = self.octets.len().saturating_sub(self.filled);
        let (first, rest) = octets.split_at_checked(room).unwrap_or((octets, &[]));
        self.put_here(first);
        for more in rest.chunks(self.octets.len().max(1)) {
            self.flush();
            self.put_here(more);
        }
    }

    // Puts octets that need not be text.
    pub fn put_all(&mut self, octets: &[u8]) {
        if !self.put_here(octets) {
            self.put_across(octets);
        }
    }

    // Puts a number behind a space. Most have one digit.
    pub fn put_field(&mut self, number: u64) {
        if number < 10 {
            self.put(b' ');
            self.put(b'0' + number as u8);
            return;
        }
        let mut slip = [b' '; 21];
        let start = lay_number(&mut slip, number);
        self.put_all(&slip[start - 1..]);
    }

    // Puts numbers, each behind a space.
    pub fn put_fields<const N: usize>(&mut self, numbers: [u64; N]) {
        for number in numbers {
            self.put_field(number);
        }
    }

    // Puts a line: a letter and numbers, each behind a space.
    pub fn put_line<const N: usize>(&mut self, letter: u8, numbers: [u64; N]) {
        self.put(letter);
        self.put_fields(numbers);
        self.put(b'\n');
    }

    // Puts words that are laid on a slip of paper of 128 octets; what lays them answers how many octets they have.
    pub fn put_laid<F: FnOnce(&mut [u8; 128]) -> usize>(&mut self, lay: F)
        requires { F.IsAlwaysCallable lay }
    {
        let mut slip = [0u8; 128];
        let count = lay(&mut slip);
        self.put_all(slip.get(..count).unwrap_or_default());
    }

    // Puts octets as their digits, two each.
    pub fn put_digits(&mut self, octets: &[u8]) {
        for some in octets.chunks(64) {
            self.put_laid(|slip| lay_digits(slip, some));
        }
    }

    // What `print!(page; ..)` calls. A page that cannot be written is remembered, and takes what its line still prints.
    pub fn print<D: Display + Drop>(&mut self, text: D) {
        let _ = self.write(text);
    }

    // What `println!(page; ..)` calls.
    pub fn println<D: Display + Drop>(&mut self, text: D) {
        let _ = self.writeln(text);
    }

    // Writes out the last page, with an error behind its lines where the run ended at a wrong line, the one of this number.
    pub fn finish(&mut self, end: Result<(), Wrong>, number: u64) {
        if end.is_err() {
            self.put_line(b'E', [number]);
        }
        self.flush();
    }
}

impl<'a> Write for Page<'a> {
    fn write_str(&mut self, text: &str) -> fmt::Result {
        self.put_all(text.as_bytes());
        Ok(())
    }
}

// Octets that are printed as their digits, two each, in a text of any kind. `put_digits` puts them on a page, in less time.
#[derive(Clone, Copy)]
pub struct Digits<'a>(pub &'a [u8]);

impl<'a> Display for Digits<'a> {
    fn fmt<W: Write>(&self, f: &mut fmt::Formatter<W>) -> fmt::Result {
        for octet in self.0 {
            f.write_char(hex_digit(octet / 16) as char)?;
            f.write_char(hex_digit(octet % 16) as char)?;
        }
        Ok(())
    }
}

// The digits of a number at the end of a slip, without leading zeros, and where they begin: an octet is left in front of them.
fn lay_number(slip: &mut [u8; 21], number: u64) -> usize
    ensures { (1 ≤ result) × (result ≤ 20) × (drop result slip.new ≡ digits (21 - result) number) × (number < 10 ^ (21 - result)) × (result < 20 → 10 ^ (20 - result) ≤ number) }
{
    let mut rest = number;
    for i in 0..20 {
        slip[20 - i] = b'0' + (rest % 10) as u8;
        rest /= 10;
        if rest == 0 {
            return 20 - i;
        }
    }
    1
}

// The digits of up to 64 octets, two each, at the start of a slip, and how many they are.
fn lay_digits(slip: &mut [u8; 128], octets: &[u8]) -> usize
    requires { length octets.now ≤ 64 }
    ensures { (result ≡ length octets.now + length octets.now) × (take result slip.new ≡ hex_of octets.now) }
{
    for (i, octet) in octets.iter().enumerate() {
        slip[2 * i] = hex_digit(octet / 16);
        slip[2 * i + 1] = hex_digit(octet % 16);
    }
    2 * octets.len()
}

#[cfg(test)]
mod tests {
    use super::*;
    use std::test::Fail;

    #[test]
    fn digits_stand_in_a_text(rt: HostRuntime) -> Result<(), Fail> {
        let text = format!(in rt.alloc(); "<{}>", Digits(&[0x00, 0x1F, 0xA0, 0x5C, 0xFF]))?;
        assert_eq!(rt; text.as_str(), "<001FA05CFF>");
        Ok(())
    }
}
