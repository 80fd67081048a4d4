// The loss counts in a file's private extension (document 02, ask 3): written for a closing, and read out of any private octets.
#![tactic(auto)]

ghost use Rattle.std.specs.Prelude.{◌≡◌};
ghost use Rattle.counts.specs.Counts.{count_octets, no_counts, counts_in};

// What private octets say: whether they are such an extension, and if so the known losses of the file's time and the unrouted
// records. C reads this struct: the field `there`, and not an Option, tells an extension that counts none from what is no such extension.
#[repr(C)]
#[derive(Clone, Copy)]
pub struct Counts {
    pub there: bool,
    pub losses: u32,
    pub unrouted: u32,
}

// What is said by octets that are no such extension.
fn no_counts() -> Counts
    ensures { result ≡ no_counts }
{
    Counts {
        there: false,
        losses: 0,
        unrouted: 0,
    }
}

// The counts in any private octets, as the reader hands them back.
#[tactic(auto, unfolding(crate::specs::Counts::counts_in))]
pub fn read(private: &[u8]) -> Counts
    ensures { result ≡ counts_in private.now }
{
    if private.len() != 9 || private[0] != 1 {
        return no_counts();
    }
    Counts {
        there: true,
        losses: octets::num::<4>(private, 1),
        unrouted: octets::num::<4>(private, 5),
    }
}

// The nine octets of two counts: kind 1, and each number in four.
pub fn octets_of(losses: u32, unrouted: u32) -> [u8; 9]
    ensures { result ≡ count_octets losses unrouted }
{
    let mut nine = [1u8; 9];
    nine[1..5].copy_from_slice(&losses.to_be_bytes());
    nine[5..].copy_from_slice(&unrouted.to_be_bytes());
    nine
}
