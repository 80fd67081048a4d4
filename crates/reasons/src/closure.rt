// A closure reason in words.
ghost use Rattle.std.specs.Prelude.{◌≡◌, ◌+◌, ◌≤◌, length};
ghost use Rattle.wording.specs.Laid.{Laid};
ghost use Rattle.reasons.specs.Closure.{why, reason_words};

use wording::lay_numbered;

// The words for it. It is the octet of any file, and so a number and not filing's enum, which has the ten reasons alone.
fn words_of(reason: u8) -> &'static [u8]
    ensures { result.now ≡ why reason }
{
    match reason {
        0 => b"normal",
        1 => b"size limit",
        2 => b"open-time limit",
        3 => b"most records",
        4 => b"manual intervention",
        5 => b"change of release, version or encoding",
        128 => b"abnormal",
        129 => b"file system error",
        130 => b"storage exhausted",
        131 => b"integrity error",
        0..=127 => b"reserved, normal",
        _ => b"reserved, abnormal",
    }
}

#[tactic(auto, unfolding(crate::specs::Closure::reason_words))]
pub fn lay_reason(page: &mut [u8], at: usize, reason: u8) -> usize
    requires { at + 128 ≤ length page.old }
    ensures { Laid page.old at (reason_words reason) page.new result }
{
    lay_numbered(page, at, u32::from(reason), words_of(reason))
}
