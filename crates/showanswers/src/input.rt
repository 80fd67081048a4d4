// What a line of a replay says behind its letter: numbers, or the octets of a file.
ghost use Rattle.std.specs.Prelude.{◌≡◌, ◌<◌, [], ◌∷◌, ℕ, length, IfOk, slice_get};
ghost use Rattle.numerals.specs.Hexadecimal.{hex_digit, hex_of};
ghost use Rattle.showanswers.specs.Line.{behind, word_at, printed_number};

use textlines::{Words, Wrong, number_of};

// A number as it is printed: it has no 0 before other digits.
fn printed_number(word: &[u8]) -> Option<u32>
    ensures { result ≡ printed_number word.now }
{
    match word {
        [b'0', _, ..] => None,
        digits => number_of(digits),
    }
}

// The N numbers of a line that has no more.
pub fn numbers_of<const N: usize>(rest: &[u8]) -> Result<[u32; N], Wrong>
    ensures { IfOk result (λ numbers. ((k : ℕ) → k < N → slice_get numbers k ≡ printed_number (word_at k rest.now)) × (behind N rest.now ≡ [])) }
{
    let mut words = Words::new(rest);
    let mut numbers = [0; N];
    for number in &mut numbers {
        let word = words.word().ok_or(Wrong)?;
        *number = printed_number(word).ok_or(Wrong)?;
    }
    words.end().ok_or(Wrong)?;
    Ok(numbers)
}

// The value of a digit as it is printed.
fn digit_of(octet: u8) -> Result<u8, Wrong>
    ensures { IfOk result (λ digit. (digit < 16) × (octet ≡ hex_digit digit)) }
{
    match octet {
        b'0'..=b'9' => Ok(octet - b'0'),
        b'A'..=b'F' => Ok(octet - b'A' + 10),
        _ => Err(Wrong),
    }
}

// The octets that the digits behind a space give, one or more, over the start of `octets`.
pub fn octets_of<'a>(rest: &[u8], octets: &'a mut [u8]) -> Result<&'a [u8], Wrong>
    ensures { IfOk result (λ octets. (rest.now ≡ 32 ∷ hex_of octets.now) × (0 < length octets.now)) }
{
    let [b' ', digits @ ..] = rest else {
        return Err(Wrong);
    };
    let (pairs, odd) = digits.as_chunks::<2>();
    if pairs.is_empty() || !odd.is_empty() {
        return Err(Wrong);
    }
    let octets = octets.get_mut(..pairs.len()).ok_or(Wrong)?;
    for (i, [high, low]) in pairs.iter().enumerate() {
        octets[i] = digit_of(*high)? * 16 + digit_of(*low)?;
    }
    Ok(octets)
}
