// A replay in words: what a line that `cdrgate` prints says, and its sentence.
#![tactic(auto)]

mod input;
mod sentences;

pub use input::{numbers_of, octets_of};
pub use sentences::{
    print_answer, print_malformed, print_packet, print_route, print_settings, print_state,
};
