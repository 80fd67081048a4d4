// Refusals in words.
ghost use Rattle.std.specs.Prelude.{◌≡◌, ◌+◌, ◌≤◌, length};
ghost use Rattle.wording.specs.Laid.{Laid};
ghost use Rattle.reasons.specs.Refusals.{of_file, of_event, file_refusal_words, refusal_words};

use wording::lay_numbered;

// The words for the reader's. This number and the next are those of an answer that C has, or of a line of text: any number, and not the enum's alone.
fn file_words_of(number: u8) -> &'static [u8]
    ensures { result.now ≡ of_file number }
{
    match number {
        8 => b"its length",
        9 => b"its header length",
        10 => b"a timestamp or a reserved length",
        11 => b"a record",
        12 => b"its count",
        13 => b"its high or low release",
        _ => b"unknown",
    }
}

// The words for those of settings, events and packets.
fn words_of(number: u32) -> &'static [u8]
    ensures { result.now ≡ of_event number }
{
    match number {
        1 => b"an entry that is unknown, cut or out of its place",
        2 => b"a value beyond its range",
        3 => b"two equal filters",
        4 => b"a time after 2099",
        5 => b"a field beyond its range",
        6 => b"no such route",
        7 => b"a reason that CLOSE may not give",
        11 => b"a cut record or a 65th",
        14 => b"the route has an open file",
        15 => b"the route has no open file",
        16 => b"the store is too short",
        17 => b"the output is too short",
        18 => b"the state is outside its bounds",
        19 => b"a loss counter is full",
        22 => b"a wrong set time of day",
        _ => b"unknown",
    }
}

#[tactic(auto, unfolding(crate::specs::Refusals::file_refusal_words))]
pub fn lay_file_refusal(page: &mut [u8], at: usize, number: u8) -> usize
    requires { at + 128 ≤ length page.old }
    ensures { Laid page.old at (file_refusal_words number) page.new result }
{
    lay_numbered(page, at, u32::from(number), file_words_of(number))
}

#[tactic(auto, unfolding(crate::specs::Refusals::refusal_words))]
pub fn lay_refusal(page: &mut [u8], at: usize, number: u32) -> usize
    requires { at + 128 ≤ length page.old }
    ensures { Laid page.old at (refusal_words number) page.new result }
{
    lay_numbered(page, at, number, words_of(number))
}
