// The octets that a word gives: `-` for none, `*` and a number for so many of value 0, or two hexadecimal digits for each.
ghost use Rattle.std.specs.Prelude.{◌≤◌, length, IfSome};

use textlines::number_of;

// The octet that two hexadecimal digits give, in either case, unlike those of a replay (showanswers), which have one: so the two readers stay apart.
fn octet_of(digits: &[u8; 2]) -> Option<u8> {
    let high = char::from(digits[0]).to_digit(16)?;
    let low = char::from(digits[1]).to_digit(16)?;
    Some((high * 16 + low) as u8)
}

fn put_zeros(space: &mut [u8], count: usize) -> Option<usize>
    ensures { IfSome result (λ count. count ≤ length space.new) }
{
    space.get_mut(..count)?.fill(0);
    Some(count)
}

fn put_pairs(space: &mut [u8], digits: &[u8]) -> Option<usize>
    ensures { IfSome result (λ count. count ≤ length space.new) }
{
    let (pairs, rest) = digits.as_chunks::<2>();
    if !rest.is_empty() {
        return None;
    }
    for (i, pair) in pairs.iter().enumerate() {
        *space.get_mut(i)? = octet_of(pair)?;
    }
    Some(pairs.len())
}

// Puts a word's octets at the start of the space and answers how many they are, if there is room for them: no slice, since a RECEIVE's body goes behind its
// key.
pub fn put_octets(space: &mut [u8], word: &[u8]) -> Option<usize>
    ensures { IfSome result (λ count. count ≤ length space.new) }
{
    match word {
        b"-" => Some(0),
        [b'*', count @ ..] => put_zeros(space, number_of(count)? as usize),
        _ => put_pairs(space, word),
    }
}
