// A file in words: a line for each field and each record, or the line of its refusal.
#![tactic(auto)]

mod lines;

pub use lines::print_file;
