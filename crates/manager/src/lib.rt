// OPEN, CLOSE and TICK on any words, store and output (document 01, The events). The three stay apart, as C lends them: of a struct that holds them
// contracts would name what is left by its place in it (`self.exit.1.0.now`), which is no plainer.
#![tactic(auto)]

mod checks;
mod closing;
mod opening;
mod ticking;

pub use closing::close;
pub use opening::open;
pub use ticking::tick;
