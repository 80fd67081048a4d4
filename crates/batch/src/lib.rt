// A packet of records taken in one call (document 02, ask 8): the state is judged once, and then its records are taken one behind another.
#![tactic(auto)]

ghost use Rattle.std.specs.Prelude.{◌≡◌, false, [], ◌∷◌, ◌+◌, ◌≤◌, if◌then◌else◌, nat_lt, length, drop};
ghost use Rattle.refusals.specs.Refusal.{first};
ghost use Rattle.refusals.specs.Number.{number, needed};
ghost use Rattle.state.specs.Common.{judged};
ghost use Rattle.words.specs.Words.{manager_in};
ghost use Rattle.words.specs.HeldIn.{Words32};
ghost use Rattle.events.specs.Events.{refusal_of};
ghost use Rattle.events.specs.Lent.{left};
ghost use Rattle.packets.specs.Packet.{size_of, first_of, wrong_packet, delivered};
ghost use Rattle.packets.specs.Fold.{received, take_all, packet_on};
ghost use Rattle.batch.specs.Told.{answers_of, told, told_of};

use events::Answer;
use refusals::Refusal;
use words::Words;

// What a packet answers: the refusal that stopped it or 0, how many records were accepted, and each tried record's own answer, with
// zeros behind them. C reads this struct: numbers and no enums, and room for every answer.
#[repr(C)]
#[derive(Clone, Copy)]
pub struct Answers {
    pub refusal: u8,
    pub accepted: u8,
    pub answers: [Answer; 64],
}

// No record was tried. By a number, 0 where nothing is refused: the loop of `take_all` begins with that.
fn untried(refusal: u8) -> Answers
    ensures { result ≡ answers_of refusal 0 [] }
{
    let none = Answer {
        refusal: 0,
        outcome: 0,
        route: 0,
        files: 0,
        compared: 0,
        octets: 0,
    };
    Answers {
        refusal,
        accepted: 0,
        answers: [none; 64],
    }
}

// Takes the record that starts at `at`, as RECEIVE would. Words, store and output stay apart, as in crate manager; that they were judged is a clause,
// as in crate receiving.
fn take_at(
    words: &mut Words,
    store: &mut [u8],
    output: &mut [u8],
    packet: &[u8],
    at: usize,
) -> Answer
    requires { (first (judged (manager_in words.old) (length store.old) []) ≡ 0) × (at + size_of (drop at packet.now) ≤ length packet.now) }
    ensures { left result words.new store.new output.new ≡ received (first_of (drop at packet.now)) words.old store.old output.old }
{
    let time = octets::num::<4>(packet, at);
    let a = packets::arrival_at(packet, at);
    let key = packet[at + 5] as usize;
    let body = octets::num::<4>(packet, at + 11) as usize;
    let from = at + 15;
    let to = from + key;
    receiving::take(
        words,
        store,
        output,
        time,
        a,
        &packet[from..to],
        &packet[to..to + body],
    )
}

// That words are of 32 bits: of an array that a call in a loop has written, the check knows the length alone. Nothing is done for it when it runs.
fn words_fit(words: &[u32])
    ensures { Words32 words.now }
{}

// Takes the n records of a packet one behind another, each lent the output behind what those before it filled, up to the first that is refused.
fn take_all(
    words: &mut Words,
    store: &mut [u8],
    output: &mut [u8],
    packet: &[u8],
    n: usize,
) -> Answers
    requires { (first (judged (manager_in words.old) (length store.old) []) ≡ 0) × (wrong_packet packet.now ≡ false) × (n ≡ length (delivered packet.now)) }
    ensures { told result words.new store.new output.new ≡ told_of (take_all (delivered packet.now) words.old store.old output.old) }
{
    let mut r = untried(0);
    let mut at = 0;
    let mut used = 0;
    for i in 0..n {
        let answer = take_at(words, store, &mut output[used..], packet, at);
        words_fit(words);
        // Field by field and no copy of the whole, for speed: that would be waited for.
        let kept = Answer {
            refusal: answer.refusal,
            outcome: answer.outcome,
            route: answer.route,
            files: answer.files,
            compared: answer.compared,
            octets: answer.octets,
        };
        r.answers[i] = kept;
        if answer.refusal != 0 {
            r.refusal = answer.refusal;
            r.accepted = i as u8;
            return r;
        }
        used += answer.octets;
        at += packets::size_at(packet, at);
    }
    r.accepted = n as u8;
    r
}

// The state or the store is refused, and so is the first of n records, if there is one.
fn refused(refusal: Refusal, n: usize) -> Answers
    ensures { result ≡ answers_of (number refusal) 0 (if nat_lt 0 n then refusal_of (number refusal) (needed refusal) ∷ [] else []) }
{
    let mut r = untried(refusal.number());
    if 0 < n {
        r.answers[0] = events::refuse(refusal);
    }
    r
}

// Takes the n records of a packet on as many words as a state has.
fn take_in(
    words: &mut Words,
    store: &mut [u8],
    output: &mut [u8],
    packet: &[u8],
    n: usize,
) -> Answers
    requires { (wrong_packet packet.now ≡ false) × (n ≡ length (delivered packet.now)) }
    ensures { told result words.new store.new output.new ≡ told_of (packet_on words.old store.old output.old packet.now) }
{
    match judging::judge_state(words, store.len()) {
        Ok(()) => take_all(words, store, output, packet, n),
        Err(refusal) => refused(refusal, n),
    }
}

// Takes a packet of any content and length.
pub fn take(words: &mut [u32], store: &mut [u8], output: &mut [u8], packet: &[u8]) -> Answers
    ensures { told result words.new store.new output.new ≡ told_of (packet_on words.old store.old output.old packet.now) }
{
    let Ok(n) = packets::count_of(packet) else {
        return untried(Refusal::Record.number());
    };
    let Some(words) = words.as_mut_array::<360>() else {
        return refused(Refusal::State, n as usize);
    };
    take_in(words, store, output, packet, n as usize)
}
