// OPEN (document 01, The events).
ghost use Rattle.std.specs.Prelude.{◌≡◌, ℕ, List, length};
ghost use Rattle.refusals.specs.Refusal.{first};
ghost use Rattle.refusals.specs.Number.{number_of};
ghost use Rattle.words.specs.Words.{manager_in};
ghost use Rattle.events.specs.Answering.{answer_of};
ghost use Rattle.events.specs.Events.{open_rules};
ghost use Rattle.events.specs.Lent.{left, open_on};

use crate::checks::judge_route;
use events::{Answer, Outcome, accept, answer_of, opened_route, refuse};
use refusals::Refusal;
use words::{Words, put};

// The first refusal of OPEN that applies.
fn judge_open(words: &Words, store: usize, time: u32, route: u32) -> Result<(), Refusal>
    ensures { number_of result ≡ first (open_rules (manager_in words.now) store time route) }
{
    judge_route(words, store, time, route)?;
    let r = words::route_at(words, route as usize);
    if r.open {
        return Err(Refusal::Open);
    }
    Ok(())
}

// The same as `open`, on as many words as a state has. Of the store only the length is looked at.
fn open_in(words: &mut Words, store: usize, time: u32, route: u32) -> Result<Answer, Refusal>
    ensures { (s o : List ℕ) → length s ≡ store → left (answer_of result) words.new s o ≡ open_on words.old s o time route }
{
    judge_open(words, store, time, route)?;
    let i = route as usize;
    let r = words::route_at(words, i);
    let t = state::effective_time(words[6], time);
    let opened = opened_route(r, t);
    put(words, i, opened, t);
    Ok(accept(Outcome::Opened, i as u8, 0, 0, 0))
}

// Opens an empty file on a route. Store and output stay.
pub fn open(words: &mut [u32], store: &mut [u8], output: &mut [u8], time: u32, route: u32) -> Answer
    ensures { left result words.new store.new output.new ≡ open_on words.old store.old output.old time route }
{
    let Some(words) = words.as_mut_array::<360>() else {
        return refuse(Refusal::State);
    };
    answer_of(open_in(words, store.len(), time, route))
}
