// Which fields a name can have (document 02, ask 1): refusal 20 says that they are not right.
ghost use Rattle.std.specs.Prelude.{◌≡◌, length};
ghost use Rattle.std.specs.List.{list_all};
ghost use Rattle.filename.specs.Name.{letter_or_digit, plain, node_right, fields_right, private_right, right};

use crate::Fields;

// Whether all octets are letters and digits.
fn is_plain(octets: &[u8]) -> bool
    ensures { result ≡ list_all letter_or_digit octets.now }
{
    octets.iter().all(|c| c.is_ascii_alphanumeric())
}

// Whether a node identifier is right: 1 to 20 letters and digits.
#[tactic(auto, using(crate::specs::Plain::plain_all))]
fn is_node_right(node: &[u8]) -> bool
    ensures { result ≡ node_right node.now }
{
    1 <= node.len() && node.len() <= 20 && is_plain(node)
}

// Whether a private part is right: 1 to 32 letters and digits where it is there, else none.
#[tactic(auto, using(crate::specs::Plain::plain_all))]
fn is_private_right(has: u32, private: &[u8]) -> bool
    ensures { result ≡ private_right has private.now }
{
    if has == 1 {
        1 <= private.len() && private.len() <= 32 && is_plain(private)
    } else {
        private.is_empty()
    }
}

// Whether the fields are in range: the tests of the definition, in its order. By `contains` of a range two of them would be one, and the proof didn't close.
#[tactic(auto, unfolding(crate::specs::Name::fields_right))]
fn are_fields_right(f: Fields) -> bool
    ensures { result ≡ fields_right f }
{
    (1 <= f.count)
        & (f.count <= 4294967295)
        & (1999 <= f.year)
        & (f.year <= 2100)
        & (1 <= f.month)
        & (f.month <= 12)
        & (1 <= f.day)
        & (f.day <= 31)
        & (f.hour <= 23)
        & (f.minute <= 59)
        & (f.sign <= 1)
        & (f.dev_hour <= 23)
        & (f.dev_minute <= 59)
        & (f.has <= 1)
}

#[tactic(auto, unfolding(crate::specs::Name::right))]
pub fn is_right(f: Fields, node: &[u8], private: &[u8]) -> bool
    ensures { result ≡ right f node.now private.now }
{
    is_node_right(node) && are_fields_right(f) && is_private_right(f.has, private)
}
