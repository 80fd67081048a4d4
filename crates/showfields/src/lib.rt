// The fields of a file in words, put on the page of a program.
#![tactic(auto)]

mod fields;
mod words;

pub use fields::{DigitsOr, InWords, print_address, print_octets_or};
pub use words::{print_file_refusal, print_lost, print_private, print_reason};
