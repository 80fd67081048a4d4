// The reader of names: fields from their places, accepted where they are right and their spelling is the name.
ghost use Rattle.std.specs.Prelude.{◌≡◌, ◌≤◌, ◌<◌, ◌*◌, ◌^◌, get_or, unwrap_or};
ghost use Rattle.filename.specs.Reading.{before, value_at, fields_from, no_name, judged, read_of};

use crate::right::is_right;
use crate::spelling::{length_of, spell};
use crate::{Fields, Name};
use refusals::Refusal;

// The octet of the name at k; 0 behind its end, which no name has.
fn octet_at(name: &[u8], k: usize) -> u8
    ensures { result ≡ get_or name.now k 0 }
{
    name.get(k).copied().unwrap_or(0)
}

// How many octets stand from k on before the first `stop`, at most n.
fn before_stop(stop: u8, name: &[u8], k: usize, n: usize) -> usize
    requires { (k ≤ 100) × (n ≤ 20) }
    ensures { (result ≡ before stop name.now k n) × (result ≤ n) }
{
    for i in 0..n {
        if octet_at(name, k + i) == stop {
            return i;
        }
    }
    n
}

// The number of the w decimal digits from k on. An octet below the digit 0 counts as 0.
fn value_at(w: usize, name: &[u8], k: usize) -> u64
    requires { (k ≤ 100) × (w ≤ 10) }
    ensures { (result ≡ value_at w name.now k) × (result < 208 * 10 ^ w) }
{
    let mut value: u64 = 0;
    for i in 0..w {
        let digit = octet_at(name, k + i).saturating_sub(b'0');
        value = value * 10 + u64::from(digit);
    }
    value
}

// The number of a field of up to four digits.
fn field_at(w: usize, name: &[u8], k: usize) -> u32
    requires { (k ≤ 100) × (w ≤ 4) }
    ensures { result ≡ value_at w name.now k }
{
    value_at(w, name, k) as u32
}

// The fields of a name whose closing begins at `at`.
fn fields_at(name: &[u8], count: u32, at: usize) -> Fields
    requires { at ≤ 33 }
    ensures { result ≡ fields_from name.now count at }
{
    Fields {
        count,
        year: field_at(4, name, at + 1),
        month: field_at(2, name, at + 5),
        day: field_at(2, name, at + 7),
        hour: field_at(2, name, at + 12),
        minute: field_at(2, name, at + 14),
        sign: u32::from(octet_at(name, at + 16) == b'+'),
        dev_hour: field_at(2, name, at + 17),
        dev_minute: field_at(2, name, at + 19),
        has: u32::from(at + 21 < name.len()),
    }
}

fn no_name() -> Name
    ensures { result ≡ no_name }
{
    Name {
        refusal: Refusal::Name.number(),
        node: 0,
        private: 0,
        fields: Fields::default(),
    }
}

// Accepts fields that are right and have this name, which is spelled again and compared.
fn judge(name: &[u8], f: Fields, node: &[u8], private: &[u8]) -> Option<Name>
    ensures { unwrap_or result no_name ≡ judged name.now f node.now private.now }
{
    if !is_right(f, node, private) {
        return None;
    }
    let n = length_of(f, node, private);
    let mut spelling = [0u8; 87];
    spell(f, node, private, &mut spelling);
    if name == &spelling[..n] {
        Some(Name {
            refusal: 0,
            node: node.len(),
            private: private.len(),
            fields: f,
        })
    } else {
        None
    }
}

// What a right name says. A running count that 32 bits do not hold is told first, so that the field can hold it.
fn name_in(name: &[u8]) -> Option<Name>
    ensures { unwrap_or result no_name ≡ read_of name.now }
{
    let node = before_stop(b'_', name, 0, 20);
    let digits = before_stop(b'.', name, node + 3, 10);
    let count = u32::try_from(value_at(digits, name, node + 3)).ok()?;
    let at = node + 3 + digits;
    let f = fields_at(name, count, at);
    let start = node.min(name.len());
    let end = (at + 22).min(name.len());
    judge(name, f, &name[..start], &name[end..])
}

// Reads a name.
pub fn read(name: &[u8]) -> Name
    ensures { result ≡ read_of name.now }
{
    name_in(name).unwrap_or(no_name())
}
