// The lost octet in words.
ghost use Rattle.std.specs.Prelude.{◌+◌, ◌≤◌, length};
ghost use Rattle.wording.specs.Laid.{Laid};
ghost use Rattle.wording.specs.Lost.{phrase_of, phrase_words, lost_words};

use crate::laying::{lay, lay_number, lay_start};

// The phrase for it.
fn lay_phrase(page: &mut [u8], at: usize, octet: u8) -> usize
    requires { at + 40 ≤ length page.old }
    ensures { Laid page.old at (phrase_words (phrase_of octet)) page.new result }
{
    match octet {
        0 => lay(page, at, b"none"),
        1..=127 => {
            let a = lay(page, at, b"at least ");
            let b = lay_number(page, a, u32::from(octet));
            lay(page, b, b", maybe more")
        }
        128 => lay(page, at, b"some, how many is unknown"),
        129..=254 => {
            let a = lay(page, at, b"exactly ");
            lay_number(page, a, u32::from(octet) - 128)
        }
        255 => lay(page, at, b"127 or more, all of them counted"),
    }
}

pub fn lay_lost(page: &mut [u8], at: usize, octet: u8) -> usize
    requires { at + 128 ≤ length page.old }
    ensures { Laid page.old at (lost_words octet) page.new result }
{
    let a = lay_start(page, at, u32::from(octet));
    lay_phrase(page, a, octet)
}
