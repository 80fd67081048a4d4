// Refusals: why a call is refused, and the number that says so to a caller in C (documents 01 and 02). Which applies first stands with each call, as a
// list of rules (specs/Refusal).
#![tactic(auto)]

ghost use Rattle.std.specs.Prelude.{◌≡◌};
ghost use Rattle.refusals.specs.Number.{number, needed};

// The cases stand in the order of their numbers, 1 to 23. `Output` has the octets that are needed.
#[derive(Clone, Copy, PartialEq, Eq)]
pub enum Refusal {
    Shape,
    Range,
    Filters,
    Time,
    Fields,
    Route,
    Reason,
    Length,
    Header,
    Value,
    Record,
    Count,
    Order,
    Open,
    NotOpen,
    Store,
    Output(usize),
    State,
    Counter,
    Name,
    NameOutput,
    SetTime,
    File,
}

impl Refusal {
    // Its number in documents 01 and 02.
    pub fn number(self) -> u8
        ensures { result ≡ number self }
    {
        match self {
            Refusal::Shape => 1,
            Refusal::Range => 2,
            Refusal::Filters => 3,
            Refusal::Time => 4,
            Refusal::Fields => 5,
            Refusal::Route => 6,
            Refusal::Reason => 7,
            Refusal::Length => 8,
            Refusal::Header => 9,
            Refusal::Value => 10,
            Refusal::Record => 11,
            Refusal::Count => 12,
            Refusal::Order => 13,
            Refusal::Open => 14,
            Refusal::NotOpen => 15,
            Refusal::Store => 16,
            Refusal::Output(_) => 17,
            Refusal::State => 18,
            Refusal::Counter => 19,
            Refusal::Name => 20,
            Refusal::NameOutput => 21,
            Refusal::SetTime => 22,
            Refusal::File => 23,
        }
    }

    // The octets that are needed, where it has any.
    pub fn needed(self) -> usize
        ensures { result ≡ needed self }
    {
        match self {
            Refusal::Output(octets) => octets,
            _ => 0,
        }
    }
}
