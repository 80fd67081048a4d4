// The writer of CDR files: a file over the start of an output, or the first refusal of 2, 10, 11, 13, 8, 17 in this order.
#![tactic(auto)]

ghost use Rattle.std.specs.Prelude.{◌≡◌};
ghost use Rattle.cdrfile.specs.Statement.{agrees};
ghost use Rattle.writer.specs.Writer.{wrong_fields, wrong_value, after, write_of};
ghost use Rattle.writer.specs.Cases.{answer_of};

use cdrfile::Header;
use refusals::Refusal;

// The answer: refusal 0 with the file's octets, 17 with the octets that it needs, or another number with 0.
// C reads this struct: a number with the octets beside it, and not a Result.
#[repr(C)]
#[derive(Clone, Copy)]
pub struct Written {
    pub refusal: u8,
    pub octets: usize,
}

// Whether the private octets are as the statement says.
fn agrees(statement: u8, private: &[u8]) -> bool
    ensures { result ≡ agrees statement private.now }
{
    if private.is_empty() {
        statement < 2
    } else {
        statement == 2
    }
}

// Whether a field is beyond its width, or the private octets contradict the header: refusal 2.
fn wrong_fields(h: Header, private: &[u8]) -> bool
    ensures { result ≡ wrong_fields h private.now }
{
    let high = record::is_narrow_release(h.high);
    let low = record::is_narrow_release(h.low);
    let opened = timestamp::is_narrow(h.opened);
    let appended = timestamp::is_narrow(h.appended);
    let stated = agrees(h.statement, private);
    !(high && low && opened && appended && stated)
}

// Whether a timestamp is wrong, or the filter or the private octets are too long for their length field: refusal 10. The reader's test is another: it has
// the length fields.
fn wrong_value(h: Header, filter: &[u8], private: &[u8]) -> bool
    ensures { result ≡ wrong_value h filter.now private.now }
{
    let opened = timestamp::is_right(h.opened);
    let appended = timestamp::is_right(h.appended);
    !opened || !appended || 65534 < filter.len() || 65534 < private.len()
}

// Writes the file of these fields and records over the start of the output, and says how long it is; where it refuses, the output stays.
fn write_file(
    h: Header,
    filter: &[u8],
    private: &[u8],
    records: &[u8],
    output: &mut [u8],
) -> Result<usize, Refusal>
    ensures { after (answer_of result) output.new ≡ write_of h filter.now private.now records.now output.old }
{
    let unfit = wrong_fields(h, private);
    let wrong = wrong_value(h, filter, private);
    if unfit {
        return Err(Refusal::Range);
    }
    if wrong {
        return Err(Refusal::Value);
    }
    let found = record::tally(records).ok_or(Refusal::Record)?;
    let disordered = cdrfile::wrong_order(h.high, h.low, found);
    let octets = cdrfile::header_length(h, filter, private) + records.len();
    if disordered {
        return Err(Refusal::Order);
    }
    if 1048576 < octets {
        return Err(Refusal::Length);
    }
    if output.len() < octets {
        return Err(Refusal::Output(octets));
    }
    cdrfile::lay_out(h, filter, private, records, found.count, output);
    Ok(octets)
}

// Writes the file of these fields and records over the start of the output, or refuses and leaves the output unchanged.
pub fn write(h: Header, filter: &[u8], private: &[u8], records: &[u8], output: &mut [u8]) -> Written
    ensures { after result output.new ≡ write_of h filter.now private.now records.now output.old }
{
    match write_file(h, filter, private, records, output) {
        Ok(length) => Written {
            refusal: 0,
            octets: length,
        },
        Err(refusal) => Written {
            refusal: refusal.number(),
            octets: refusal.needed(),
        },
    }
}
