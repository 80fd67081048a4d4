// What a lost octet and a private extension say, in words, laid on a page (../shared/CDRSHOW.md). A page has room for them: 128 octets behind the
// place where they begin, and for an extension its digits too. Page and place stay parameters: docs/RULES.md names `lay_lost` and `lay_private`, and those
// of crate reasons, which have them so.
#![tactic(auto)]

mod laying;
mod lost;
mod private;

pub use laying::lay_numbered;
pub use lost::lay_lost;
pub use private::lay_private;
