// Records that no file takes (document 01, Routing and loss): unrouted ones and lost ones. They open and close nothing.
ghost use Rattle.std.specs.Prelude.{◌≡◌, ◌≢◌, true, ◌+◌, ◌*◌, ◌≤◌, ◌<◌, slice_index, slice_set};
ghost use Rattle.state.specs.Loss.{lost};
ghost use Rattle.words.specs.Words.{manager_in, words_of};
ghost use Rattle.refusals.specs.Below.{all_below};
ghost use Rattle.events.specs.Answering.{answer_of};
ghost use Rattle.events.specs.Rules.{header_for};
ghost use Rattle.events.specs.Receive.{can_note};
ghost use Rattle.receiving.specs.Cases.{UsableUnlessMarked, unrouted_or, lost_or};
ghost use Rattle.receiving.specs.Told.{told, told_words, ReadAt, noted_to};

use events::{Answer, Arrival, Outcome, accept};
use refusals::Refusal;
use state::{Route, RouteSettings};
use words::Words;

// Whether a record routed to a route of these settings is lost. With mark 1 the fields are not judged and may be of any size,
// so that mark is told first.
pub fn is_lost(s: RouteSettings, a: Arrival, body: usize) -> bool
    requires { UsableUnlessMarked a }
    ensures { result ≡ lost s.limit s.octets a.mark (header_for a).release body }
{
    if a.mark == 1 {
        return true;
    }
    let h = placing::header_for(a);
    state::is_lost(s, a.mark, h.release, body)
}

// Whether every route below n can count one more unrouted record. The count is word 11 of a route's.
fn can_note(words: &Words, n: usize) -> bool
    requires { n ≤ 8 }
    ensures { result ≡ all_below (can_note (manager_in words.now)) n }
{
    judging::all_below(n, |i| words[19 + 19 * i] != u32::MAX)
}

// Counts an unrouted record on route i, which can.
fn note_route(words: &mut Words, i: usize)
    requires { (i < 8) × (slice_index words.old (19 + 19 * i) ≢ 4294967295) }
    ensures { words.new ≡ slice_set words.old (19 + 19 * i) (slice_index words.old (19 + 19 * i) + 1) }
{
    let at = 19 + 19 * i;
    words[at] = words[at] + 1;
}

// And on the routes below n, which can.
fn note_routes(words: &mut Words, n: usize)
    requires { (n ≤ 8) × (all_below (can_note (manager_in words.old)) n ≡ true) }
    ensures { words.new ≡ words_of (noted_to (manager_in words.old) n) }
{
    for i in 0..n {
        note_route(words, i);
    }
}

// An unrouted record is counted, by the manager and on every configured route. All counters are looked at before one rises.
pub fn unrouted(words: &mut Words, t: u32, compared: u8) -> Result<Answer, Refusal>
    requires { (manager_in words.old).count ≤ 8 }
    ensures { told (answer_of result) words.new ≡ told_words (unrouted_or (manager_in words.old) t compared) }
{
    let n = words::count_of(words);
    let room = can_note(words, n);
    if (words[7] == u32::MAX) | !room {
        return Err(Refusal::Counter);
    }
    let more = words[7] + 1;
    note_routes(words, n);
    words[6] = t;
    words[7] = more;
    Ok(accept(Outcome::Unrouted, 255, 0, 0, compared))
}

// A lost record is counted on its route i, which is r.
pub fn lost(
    words: &mut Words,
    t: u32,
    i: usize,
    mut r: Route,
    compared: u8,
) -> Result<Answer, Refusal>
    requires { ReadAt words.old i r }
    ensures { told (answer_of result) words.new ≡ told_words (lost_or (manager_in words.old) t i compared) }
{
    if r.losses == u32::MAX {
        return Err(Refusal::Counter);
    }
    r.losses += 1;
    words::put(words, i, r, t);
    Ok(accept(Outcome::Lost, i as u8, 0, 0, compared))
}
