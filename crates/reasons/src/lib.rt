// Closure reasons and refusals in words, laid on a page (../shared/CDRSHOW.md). A page has room for them: 128 octets behind the place where they
// begin.
#![tactic(auto)]

mod closure;
mod refused;

pub use closure::lay_reason;
pub use refused::{lay_file_refusal, lay_refusal};
