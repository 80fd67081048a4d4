// The writer of names: a name over the start of an output, or refusal 20, then 21.
ghost use Rattle.std.specs.Prelude.{◌≡◌};
ghost use Rattle.filename.specs.Writing.{after, answer_of, write_of};

use crate::right::is_right;
use crate::spelling::{length_of, spell};
use crate::{Fields, Written};
use refusals::Refusal;

// Writes a name where its fields are right and the output is long enough; how many octets it has.
fn put_name(f: Fields, node: &[u8], private: &[u8], output: &mut [u8]) -> Result<usize, Refusal>
    ensures { after (answer_of result) output.new ≡ write_of f node.now private.now output.old }
{
    if !is_right(f, node, private) {
        return Err(Refusal::Name);
    }
    let octets = length_of(f, node, private);
    if output.len() < octets {
        return Err(Refusal::NameOutput);
    }
    spell(f, node, private, output);
    Ok(octets)
}

// Writes the name of these fields over the start of the output, or refuses and leaves the output unchanged.
pub fn write(f: Fields, node: &[u8], private: &[u8], output: &mut [u8]) -> Written
    ensures { after result output.new ≡ write_of f node.now private.now output.old }
{
    match put_name(f, node, private, output) {
        Ok(octets) => Written { refusal: 0, octets },
        Err(refusal) => Written {
            refusal: refusal.number(),
            octets: 0,
        },
    }
}
