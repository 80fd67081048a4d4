// RECEIVE on any state, store and output (document 01, Routing and loss, The events): a record is unrouted, lost or placed.
#![tactic(auto)]

mod pass;

ghost use Rattle.std.specs.Prelude.{◌≡◌, [], length};
ghost use Rattle.refusals.specs.Refusal.{first};
ghost use Rattle.state.specs.Common.{judged};
ghost use Rattle.state.specs.Routing.{Routable, routed_of};
ghost use Rattle.words.specs.Words.{manager_in};
ghost use Rattle.events.specs.Answering.{answer_of};
ghost use Rattle.events.specs.Rules.{wrong_fields, routed_to, compared_to};
ghost use Rattle.events.specs.Lent.{left, receive_on};

use events::{Answer, Arrival, Outcome, accept, answer_of, refuse};
use placing::Target;
use refusals::Refusal;
use routing::Counted;
use words::Words;

// Whether the mark, the key's length or the record's fields are wrong: refusal 5.
fn wrong_fields(a: Arrival, key: usize) -> bool
    ensures { result ≡ wrong_fields a key }
{
    (2 < a.mark)
        | ((a.mark < 2) & (20 < key))
        | ((a.mark == 0)
            & ((7 < a.release)
                | (7 < a.format)
                | (31 < a.version)
                | (31 < a.ts)
                | ((a.release < 7) & !(a.extension == 0))))
}

// Where a record goes, and what that took: mark 2 says that nothing is to be trusted, so that nothing is compared.
fn routed_to(words: &Words, a: Arrival, key: &[u8]) -> Counted
    requires { Routable (manager_in words.now) }
    ensures { (routed_of result.routed ≡ routed_to (manager_in words.now) a key.now) × (result.compared ≡ compared_to (manager_in words.now) a key.now) }
{
    if a.mark == 2 {
        return Counted {
            routed: None,
            compared: 0,
        };
    }
    routing::route_of(words, key)
}

// A record is unrouted, lost or placed.
pub fn receive(
    words: &mut [u32],
    store: &mut [u8],
    output: &mut [u8],
    time: u32,
    a: Arrival,
    key: &[u8],
    body: &[u8],
) -> Answer
    ensures { left result words.new store.new output.new ≡ receive_on words.old store.old output.old time a key.now body.now }
{
    let Some(words) = words.as_mut_array::<360>() else {
        return refuse(Refusal::State);
    };
    answer_of(receive_in(words, store, output, time, a, key, body))
}

// The same, on as many words as a state has. What is lent and what the record says stay apart, as C gives them: of structs of them contracts would
// name each by its place, which is no plainer.
fn receive_in(
    words: &mut Words,
    store: &mut [u8],
    output: &mut [u8],
    time: u32,
    a: Arrival,
    key: &[u8],
    body: &[u8],
) -> Result<Answer, Refusal>
    ensures { left (answer_of result) words.new store.new output.new ≡ receive_on words.old store.old output.old time a key.now body.now }
{
    judging::judge_state(words, store.len())?;
    Ok(take(words, store, output, time, a, key, body))
}

// The same on a state and a store that were judged: 18 and 16 do not apply. That is said of what two `&mut` point to, between whose writes it does
// not hold: so it is a clause, and no type keeps it.
pub fn take(
    words: &mut Words,
    store: &mut [u8],
    output: &mut [u8],
    time: u32,
    a: Arrival,
    key: &[u8],
    body: &[u8],
) -> Answer
    requires { first (judged (manager_in words.old) (length store.old) []) ≡ 0 }
    ensures { left result words.new store.new output.new ≡ receive_on words.old store.old output.old time a key.now body.now }
{
    answer_of(take_in(words, store, output, time, a, key, body))
}

// The same, with what refuses it.
fn take_in(
    words: &mut Words,
    store: &mut [u8],
    output: &mut [u8],
    time: u32,
    a: Arrival,
    key: &[u8],
    body: &[u8],
) -> Result<Answer, Refusal>
    requires { first (judged (manager_in words.old) (length store.old) []) ≡ 0 }
    ensures { left (answer_of result) words.new store.new output.new ≡ receive_on words.old store.old output.old time a key.now body.now }
{
    if 52595999 < time {
        return Err(Refusal::Time);
    }
    if wrong_fields(a, key.len()) {
        return Err(Refusal::Fields);
    }
    let t = state::effective_time(words[6], time);
    let to = routed_to(words, a, key);
    let Some(found) = to.routed else {
        return pass::unrouted(words, t, to.compared);
    };
    let i = found.at as usize;
    let r = words::route_at(words, i);
    if pass::is_lost(r.settings, a, body.len()) {
        return pass::lost(words, t, i, r, to.compared);
    }
    let from = judging::region_base(words, i);
    // Most records only join the open file.
    if placing::does_join(r, a, body.len(), t) {
        let joined = placing::join(from, r, store, t, a, body);
        words::put(words, i, joined, t);
        return Ok(accept(Outcome::Placed, found.at, 0, 0, to.compared));
    }
    let target = Target {
        node: words::node_of(words),
        from,
        route: r,
    };
    let p = target.place(store, output, t, a, body)?;
    words::put(words, i, p.route, t);
    Ok(accept(Outcome::Placed, found.at, p.files, p.octets, to.compared))
}
