// What a gate script says: what each of its lines asks for.
#![tactic(auto)]

mod octet_words;
mod script;

pub use script::{Command, Event, Receipt, command_of};
