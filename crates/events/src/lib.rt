// The four events (document 01, The events): their definitions are in specs/, and this is what their code has in common: the answer, and
// what an opening and a closing do to a route.
#![tactic(auto)]

mod answers;
mod routes;
mod sets;

pub use answers::{accept, answer_of, refuse, refuse_number};
pub use routes::{closed_route, closed_size, end_octets, ending, opened_route};
pub use sets::is_met;

// What an accepted event did, with the number that its answer has.
#[derive(Clone, Copy, PartialEq, Eq)]
pub enum Outcome {
    Opened = 1,
    Placed = 2,
    Lost = 3,
    Unrouted = 4,
    Closed = 5,
    Ticked = 6,
}

// What an event answers: refusal 0 with the outcome (1 opened, 2 placed, 3 lost, 4 unrouted, 5 closed, 6 ticked), the route (255
// for 4 and 6), the number of files closed, the octets of filters that RECEIVE compared (document 02, ask 7) and the octets written to
// the output; or a refusal with zeros, but 17 with the needed octets. C reads this struct: numbers and no enums.
#[repr(C)]
#[derive(Clone, Copy)]
pub struct Answer {
    pub refusal: u8,
    pub outcome: u8,
    pub route: u8,
    pub files: u8,
    pub compared: u8,
    pub octets: usize,
}

// What RECEIVE is told of a record beside its key and body. C writes this struct.
#[repr(C)]
#[derive(Clone, Copy)]
pub struct Arrival {
    pub mark: u32,
    pub release: u32,
    pub version: u32,
    pub extension: u8,
    pub format: u32,
    pub ts: u32,
}
