// TICK (document 01, The events; document 02, ask 6).
ghost use Rattle.std.specs.Prelude.{◌≡◌};
ghost use Rattle.words.specs.Words.{manager_in};
ghost use Rattle.events.specs.Answering.{answer_of};
ghost use Rattle.events.specs.Events.{due_size};
ghost use Rattle.manager.specs.Tick.{Endable, Ticks, Ticked};
ghost use Rattle.events.specs.Lent.{left, tick_on};

use events::{
    Answer, Outcome, accept, answer_of, closed_route, closed_size, end_octets, ending, is_met,
    refuse,
};
use refusals::Refusal;
use words::Words;

// The octets of the files below n that end at time t.
fn due_size(words: &Words, t: u32, n: usize) -> usize
    requires { Endable (manager_in words.now) t n }
    ensures { result ≡ due_size (manager_in words.now) t n }
{
    let mut size = 0;
    for i in 0..n {
        let r = words::route_at(words, i);
        let met = is_met(words, i, words[4], r.file.opened, t);
        size += end_octets(t, r, met);
    }
    size
}

// Closes the files below n that end at time t, in route order, each behind the one before; how many there were. Every file is
// the one that the state at the event's beginning describes: a route's words change behind its own turn.
fn close_due(words: &mut Words, t: u32, n: usize, store: &[u8], output: &mut [u8]) -> u8
    requires { Ticks (manager_in words.old) t n store.now output.old }
    ensures { Ticked (manager_in words.old) t n store.now output.old output.new words.new result }
{
    let node = words::node_of(words);
    let mut from = 0;
    let mut at = 0;
    let mut files = 0;
    for i in 0..n {
        let r = words::route_at(words, i);
        let met = is_met(words, i, node.bias, r.file.opened, t);
        if let Some(reason) = ending(t, r, met) {
            // A closing is given a copy, so that a route whose file does not end is never laid out in memory for one.
            let closing = r;
            filing::close_file(node, closing, reason.number(), store, from, output, at);
            let closed = closed_route(r);
            words::put_route(words, i, closed);
            at += closed_size(r);
            files += 1;
        }
        from += r.settings.limit as usize;
    }
    files
}

// The same as `tick`, on as many words as a state has.
fn tick_in(words: &mut Words, store: &[u8], output: &mut [u8], time: u32) -> Result<Answer, Refusal>
    ensures { left (answer_of result) words.new store.now output.new ≡ tick_on words.old store.now output.old time }
{
    judging::judge(words, store.len(), time)?;
    let t = state::effective_time(words[6], time);
    let n = words::count_of(words);
    let size = due_size(words, t, n);
    if output.len() < size {
        return Err(Refusal::Output(size));
    }
    // Where no file ends, none is looked at twice.
    if size == 0 {
        words[6] = t;
        return Ok(accept(Outcome::Ticked, 255, 0, 0, 0));
    }
    let files = close_due(words, t, n, store, output);
    words[6] = t;
    Ok(accept(Outcome::Ticked, 255, files, size, 0))
}

// Closes with 2 each file whose age has reached its route's limit, and with 0 each other in whose time a set minute has fallen. The store stays.
pub fn tick(words: &mut [u32], store: &mut [u8], output: &mut [u8], time: u32) -> Answer
    ensures { left result words.new store.new output.new ≡ tick_on words.old store.old output.old time }
{
    let Some(words) = words.as_mut_array::<360>() else {
        return refuse(Refusal::State);
    };
    answer_of(tick_in(words, store, output, time))
}
