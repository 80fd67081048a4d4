// The name of right fields (000, 6.2), part behind part.
ghost use Rattle.std.specs.Prelude.{◌≡◌, ◌+◌, ◌≤◌, length};
ghost use Rattle.octets.specs.Splice.{splice};
ghost use Rattle.filename.specs.Name.{sign_octet, closing, private_part, spelled};

use crate::Fields;
use numerals::{digits, put_decimal, width_of};

fn sign_octet(sign: u32) -> u8
    ensures { result ≡ sign_octet sign }
{
    if sign == 1 { b'+' } else { b'-' }
}

// The point, the date, the delimiter and the time of closing.
fn closing_of(f: Fields) -> [u8; 21]
    ensures { result ≡ closing f }
{
    let mut closing = *b".YYYYMMDD_-_HHMM+hhmm";
    closing[1..5].copy_from_slice(&digits::<4>(f.year));
    closing[5..7].copy_from_slice(&digits::<2>(f.month));
    closing[7..9].copy_from_slice(&digits::<2>(f.day));
    closing[12..14].copy_from_slice(&digits::<2>(f.hour));
    closing[14..16].copy_from_slice(&digits::<2>(f.minute));
    closing[16] = sign_octet(f.sign);
    closing[17..19].copy_from_slice(&digits::<2>(f.dev_hour));
    closing[19..].copy_from_slice(&digits::<2>(f.dev_minute));
    closing
}

// Writes the private part with its point, where it is there.
fn put_private(has: u32, private: &[u8], output: &mut [u8], at: usize)
    requires { at + length (private_part has private.now) ≤ length output.old }
    ensures { output.new ≡ splice output.old at (private_part has private.now) }
{
    if has == 1 {
        octets::copy(output, at, b".");
        octets::copy(output, at + 1, private);
    }
}

// How many octets the name of right fields has.
#[tactic(auto, using(crate::specs::Cases::spelled_length))]
pub fn length_of(f: Fields, node: &[u8], private: &[u8]) -> usize
    requires { (length node.now ≤ 20) × (length private.now ≤ 32) }
    ensures { (result ≡ length (spelled f node.now private.now)) × (result ≤ 87) }
{
    let before = node.len() + width_of(f.count) + 24;
    if f.has == 1 {
        before + 1 + private.len()
    } else {
        before
    }
}

// Writes the name of the fields over the start of the output, part behind part.
#[tactic(auto, using(crate::specs::Cases::spelled_length))]
pub fn spell(f: Fields, node: &[u8], private: &[u8], output: &mut [u8])
    requires { length (spelled f node.now private.now) ≤ length output.old }
    ensures { output.new ≡ splice output.old 0 (spelled f node.now private.now) }
{
    let digits = width_of(f.count);
    let closing = closing_of(f);
    octets::copy(output, 0, node);
    octets::copy(output, node.len(), b"_-_");
    put_decimal(f.count, output, node.len() + 3);
    octets::copy(output, node.len() + 3 + digits, &closing);
    put_private(f.has, private, output, node.len() + 24 + digits);
}
