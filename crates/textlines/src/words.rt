// The words of a line, each behind one space.
ghost use Rattle.std.specs.Prelude.{◌≡◌, ◌<◌, ◌≤◌, ◌↔◌, [], ◌∷◌, ◌++◌, length, IsSome, MatchOption, Some, List, ℕ};
ghost use Rattle.textlines.specs.Decimal.{number_of};
ghost use Rattle.textlines.specs.Words.{is_space, word_of};
ghost use Rattle.std.specs.List.{position_or_len};

// How many octets stand before the first space.
fn before_space(octets: &[u8]) -> usize
    ensures { (result ≡ position_or_len is_space octets.now) × (result ≤ length octets.now) }
{
    octets
        .iter()
        .position(|octet| *octet == b' ')
        .unwrap_or(octets.len())
}

// What is left of a line: each word stands behind a space.
#[derive(Clone, Copy)]
pub struct Words<'a> {
    rest: &'a [u8],
}

impl<'a> Words<'a> {
    pub fn new(rest: &'a [u8]) -> Words<'a>
        ensures { result.rest.now ≡ rest.now }
    {
        Words { rest }
    }

    // The next word, up to the next space or the line's end. A word has an octet at least.
    pub fn word(&mut self) -> Option<&'a [u8]>
        ensures { MatchOption result ((word_of self.old.rest.now ≡ []) × (self.new.rest.now ≡ self.old.rest.now))
            (λ word. (word.now ≡ word_of self.old.rest.now) × (0 < length word.now)
            × (self.old.rest.now ≡ 32 ∷ word.now ++ self.new.rest.now)) }
    {
        let (space, behind) = self.rest.split_first()?;
        if *space != b' ' {
            return None;
        }
        let count = before_space(behind);
        if count == 0 {
            return None;
        }
        let (word, rest) = behind.split_at_checked(count)?;
        self.rest = rest;
        Some(word)
    }

    // The next word, if it is a number.
    pub fn number(&mut self) -> Option<u32>
        ensures value { result ≡ number_of (word_of self.old.rest.now) }
        ensures rest { IsSome result → self.old.rest.now ≡ 32 ∷ word_of self.old.rest.now ++ self.new.rest.now }
    {
        number_of(self.word()?)
    }

    // The line's end, if it stands next.
    pub fn end(self) -> Option<()>
        ensures { IsSome result ↔ (self.entry.rest.now ≡ []) }
    {
        if self.rest.is_empty() { Some(()) } else { None }
    }
}

// The number that decimal digits give, if it has no more than 32 bits.
pub fn number_of(digits: &[u8]) -> Option<u32>
    ensures { result ≡ number_of digits.now }
{
    if digits.is_empty() {
        return None;
    }
    let mut number: u32 = 0;
    for octet in digits {
        let digit = char::from(*octet).to_digit(10)?;
        number = number.checked_mul(10)?.checked_add(digit)?;
    }
    Some(number)
}
