// CLOSE (document 01, The events).
ghost use Rattle.std.specs.Prelude.{◌≡◌, false, true, length, IsOk, IfOk, MatchOption};
ghost use Rattle.refusals.specs.Refusal.{first};
ghost use Rattle.refusals.specs.Number.{number_of};
ghost use Rattle.words.specs.Words.{manager_in};
ghost use Rattle.filing.specs.Reason.{reason_number};
ghost use Rattle.events.specs.Answering.{answer_of};
ghost use Rattle.events.specs.Rules.{allowed};
ghost use Rattle.events.specs.Cases.{close_first};
ghost use Rattle.events.specs.Lent.{left, close_on};

use crate::checks::judge_route;
use events::{Answer, Outcome, accept, answer_of, closed_route, closed_size, refuse};
use filing::Reason;
use refusals::Refusal;
use words::{Words, put};

// The reason of a number that CLOSE may give.
fn allowed_reason(number: u32) -> Option<Reason>
    ensures { MatchOption result (allowed number ≡ false) (λ reason. (allowed number ≡ true) × (reason_number reason ≡ number)) }
{
    match number {
        0 => Some(Reason::Normal),
        4 => Some(Reason::Manual),
        128 => Some(Reason::Abnormal),
        129 => Some(Reason::FileSystem),
        130 => Some(Reason::Storage),
        131 => Some(Reason::Integrity),
        _ => None,
    }
}

// The first refusal of CLOSE but 17 that applies, or the reason.
fn judge_close(
    words: &Words,
    store: usize,
    time: u32,
    route: u32,
    reason: u32,
) -> Result<Reason, Refusal>
    ensures first { number_of result ≡ first (close_first (manager_in words.now) store time route reason) }
    ensures reason { IfOk result (λ r. reason_number r ≡ reason) }
{
    judge_route(words, store, time, route)?;
    let allowed = allowed_reason(reason).ok_or(Refusal::Reason)?;
    let r = words::route_at(words, route as usize);
    if !r.open {
        return Err(Refusal::NotOpen);
    }
    Ok(allowed)
}

// The same as `close`, on as many words as a state has.
fn close_in(
    words: &mut Words,
    store: &[u8],
    output: &mut [u8],
    time: u32,
    route: u32,
    reason: u32,
) -> Result<Answer, Refusal>
    ensures { left (answer_of result) words.new store.now output.new ≡ close_on words.old store.now output.old time route reason }
{
    let given = judge_close(words, store.len(), time, route, reason)?;
    let i = route as usize;
    let r = words::route_at(words, i);
    let size = closed_size(r);
    if output.len() < size {
        return Err(Refusal::Output(size));
    }
    let n = words::node_of(words);
    let base = judging::region_base(words, i);
    let t = state::effective_time(words[6], time);
    filing::close_file(n, r, given.number(), store, base, output, 0);
    let closed = closed_route(r);
    put(words, i, closed, t);
    Ok(accept(Outcome::Closed, i as u8, 1, size, 0))
}

// Closes a route's file with a reason into the output. The store stays.
pub fn close(
    words: &mut [u32],
    store: &mut [u8],
    output: &mut [u8],
    time: u32,
    route: u32,
    reason: u32,
) -> Answer
    ensures { left result words.new store.new output.new ≡ close_on words.old store.old output.old time route reason }
{
    let Some(words) = words.as_mut_array::<360>() else {
        return refuse(Refusal::State);
    };
    answer_of(close_in(words, store, output, time, route, reason))
}
