// How an event accepts and how it refuses (document 01, The events, Refusals).
ghost use Rattle.std.specs.Prelude.{◌≡◌};
ghost use Rattle.refusals.specs.Number.{number, needed};
ghost use Rattle.events.specs.Answering.{answer_of};
ghost use Rattle.events.specs.Events.{answered, refusal_of};
ghost use Rattle.events.specs.Outcomes.{outcome_number};

use crate::{Answer, Outcome};
use refusals::Refusal;

// An accepted event's answer.
pub fn accept(outcome: Outcome, route: u8, files: u8, octets: usize, compared: u8) -> Answer
    ensures { result ≡ answered (outcome_number outcome) route files octets compared }
{
    Answer {
        refusal: 0,
        outcome: outcome as u8,
        route,
        files,
        compared,
        octets,
    }
}

// An answer of zeros but for a number, and behind 17 the octets that are needed.
pub fn refuse_number(number: u8, needed: usize) -> Answer
    ensures { result ≡ refusal_of number needed }
{
    Answer {
        refusal: number,
        outcome: 0,
        route: 0,
        files: 0,
        compared: 0,
        octets: if number == 17 { needed } else { 0 },
    }
}

// A refusal's answer.
pub fn refuse(refusal: Refusal) -> Answer
    ensures { result ≡ refusal_of (number refusal) (needed refusal) }
{
    refuse_number(refusal.number(), refusal.needed())
}

// What an event answers that accepts or refuses.
pub fn answer_of(outcome: Result<Answer, Refusal>) -> Answer
    ensures { result ≡ answer_of outcome }
{
    outcome.unwrap_or_else(refuse)
}
