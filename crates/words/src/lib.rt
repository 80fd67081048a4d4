// The manager's state as lent words (specs/Words has the layout): what they say, and the words that an event changes.
#![tactic(auto)]

mod reading;
mod writing;

pub use reading::{
    count_of, file_in, flag_of, node_of, release_in, route_at, route_words, set_count, set_minute,
    settings_at, settings_in, top_of,
};
pub use writing::{packed, put, put_route};

// The words of a state.
pub type Words = [u32; 360];

// The words of one of its eight routes.
pub type RouteWords = [u32; 19];
