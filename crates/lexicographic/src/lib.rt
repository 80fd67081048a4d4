// Two parts of octets in lexicographic order. std compares many octets at a time where the two parts are the same.
#![tactic(auto)]

ghost use Rattle.std.specs.Prelude.{◌≡◌};
ghost use Rattle.std.specs.Ordering.{ordering_index};
ghost use Rattle.lexicographic.specs.Lexicographic.{order_of};

use std::cmp::Ordering;

// Less, the first comes before the second; Equal, they are the same; Greater, the first comes after the second: 0, 1 and 2 of `order_of`.
#[tactic(auto, using(crate::specs::Lexicographic::order_std))]
pub fn order(x: &[u8], y: &[u8]) -> Ordering
    ensures { ordering_index result ≡ order_of x.now y.now }
{
    x.cmp(y)
}
