// A route of the manager's state by value, and the rules that look at it alone: sizes, routing, losses, and the bounds of its file (refusal 18).
// The state as a whole is lent words (crate words); the definitions see it as `Manager` (specs/Manager).
#![tactic(auto)]

mod bounds;
mod clock;
mod loss;
mod size;

pub use bounds::file_right;
pub use clock::effective_time;
pub use loss::{is_lost, lost_indicator};
use record::Release;
pub use size::header_size;

// A route's settings (document 01, Settings): its filter, of which `octets` count and the rest are 0; the size limit; the
// open-time limit in minutes and the most records, 0 for none; the flag for one release and version per file; and the release
// and version of an empty file.
// The 0 for none and the flag stay numbers: each of a state's words says something, so that words and states determine each other
// (`words_words` of crate words).
#[derive(Clone, Copy)]
pub struct RouteSettings {
    pub filter: [u8; 20],
    pub octets: u8,
    pub limit: u32,
    pub age: u32,
    pub most: u32,
    pub flag: u8,
    pub release: Release,
}

// An open file: its sequence number, the minutes of opening and last append, the greatest and least release of its records
// (the configured one where it has none), their format, their number and their octets.
#[derive(Clone, Copy)]
pub struct OpenFile {
    pub sequence: u32,
    pub opened: u32,
    pub appended: u32,
    pub high: Release,
    pub low: Release,
    pub format: u8,
    pub count: u32,
    pub octets: u32,
}

// A route: its settings, its next sequence number, the known losses and the unrouted records since its last file closed, and
// its open file, if any. No `Option` of a file: the words of a closed file stay as they are, so that words and states determine each
// other (`words_words`, `manager_words` of crate words).
#[derive(Clone, Copy)]
pub struct Route {
    pub settings: RouteSettings,
    pub next: u32,
    pub losses: u32,
    pub unrouted: u32,
    pub open: bool,
    pub file: OpenFile,
}

// The node: its address, and its UTC offset plus 1,439.
#[derive(Clone, Copy)]
pub struct Node {
    pub address: [u8; 16],
    pub bias: u32,
}

// The route that routing found, and how many octets its filter has.
#[derive(Clone, Copy)]
pub struct Found {
    pub at: u8,
    pub octets: u8,
}
