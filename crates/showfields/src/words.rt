// The words that are laid by the crates `wording` and `reasons`, put on the page. The pages in docs/ name the functions that lay them, and they lay octets, of
// which a `Display` would have to make text again. Reason, statement and refusal are the numbers of the structs that C reads.
ghost use Rattle.std.specs.Prelude.{◌≤◌, length};

use textlines::{Page, part};

pub fn print_lost(page: &mut Page<'_>, octet: u8) {
    page.put_laid(|slip| wording::lay_lost(slip, 0, octet));
}

pub fn print_reason(page: &mut Page<'_>, reason: u8) {
    page.put_laid(|slip| reasons::lay_reason(slip, 0, reason));
}

pub fn print_file_refusal(page: &mut Page<'_>, number: u8) {
    page.put_laid(|slip| reasons::lay_file_refusal(slip, 0, number));
}

// The slip has room for the digits of 65,536 octets too.
pub fn print_private(page: &mut Page<'_>, statement: u8, private: &[u8])
    requires { length private.now ≤ 65536 }
{
    let mut slip = [0u8; 131200];
    let n = wording::lay_private(&mut slip, 0, statement, private);
    page.put_all(part(&slip, 0, n));
}
