// The reader of CDR files: what a file holds, or the first refusal of 8 to 13 in order.
#![tactic(auto)]

ghost use Rattle.std.specs.Prelude.{◌≡◌, cond, eqb, ◌+◌, ◌≤◌, ◌<◌, length, get_or};
ghost use Rattle.refusals.specs.Number.{number_of};
ghost use Rattle.refusals.specs.Refusal.{first};
ghost use Rattle.record.specs.Walk.{found};
ghost use Rattle.reader.specs.Places.{extensions_of, header_at};
ghost use Rattle.reader.specs.Reader.{wrong_value, wrong_records, answer_of, read_of, part_of};
ghost use Rattle.reader.specs.Frame.{frame_of, header_frame, framed, frame_found, Framed, RightFrame};

use cdrfile::Header;
use record::Totals;
use refusals::Refusal;

// A part of a file, by value: where it starts and how many octets it has.
#[repr(C)]
#[derive(Clone, Copy, Default)]
pub struct Part {
    pub start: usize,
    pub octets: usize,
}

// What a file holds: refusal 0 with the header's fields, the parts of filter, private octets and records, and the number of
// records; or 8 to 13 with zeros. The header's length is where the records start.
// C reads this struct: a number with the rest beside it, and not a Result.
#[repr(C)]
#[derive(Clone, Copy, Default)]
pub struct Contents {
    pub refusal: u8,
    pub header: Header,
    pub filter: Part,
    pub private: Part,
    pub records: Part,
    pub count: usize,
}

// What a header's lengths say: the header's length, the filter's, what they state of a private extension, by the number that C reads, and its part.
#[derive(Clone, Copy)]
struct Lengths {
    header: usize,
    filter: usize,
    statement: u8,
    private: Part,
}

// How many extension octets a header has for a release and version octet.
fn extensions_of(octet: u8) -> usize
    ensures { (result ≡ extensions_of octet) × (result ≤ 1) }
{
    record::extension_length(octet / 32)
}

// What a header states of its private extension, where it has one of so many octets.
fn statement_of(octets: usize) -> u8
    ensures { result ≡ cond (eqb octets 0) 1 2 }
{
    if octets == 0 { 1 } else { 2 }
}

// The frame of a header that is longer than filter and release extensions make it.
fn private_frame(
    file: &[u8],
    header: usize,
    filter: usize,
    plain: usize,
) -> Result<Lengths, Refusal>
    requires framed { Framed file.now header filter plain }
    requires plain_lt_header { (plain < header) × (header ≤ length file.now) }
    ensures { framed result ≡ header_frame file.now }
{
    if header < plain + 2 {
        return Err(Refusal::Header);
    }
    let octets = octets::num::<2>(file, 50 + filter) as usize;
    if header != plain + 2 + octets {
        return Err(Refusal::Header);
    }
    Ok(Lengths {
        header,
        filter,
        statement: statement_of(octets),
        private: Part {
            start: 52 + filter,
            octets,
        },
    })
}

// The frame of a file whose length is right.
fn header_frame(file: &[u8]) -> Result<Lengths, Refusal>
    requires { 50 ≤ length file.now }
    ensures { framed result ≡ header_frame file.now }
{
    let header = octets::num::<4>(file, 4) as usize;
    let filter = octets::num::<2>(file, 48) as usize;
    let plain = 50 + filter + (extensions_of(file[8]) + extensions_of(file[9]));
    if file.len() < header {
        return Err(Refusal::Header);
    }
    if header < plain {
        return Err(Refusal::Header);
    }
    if plain < header {
        return private_frame(file, header, filter, plain);
    }
    Ok(Lengths {
        header,
        filter,
        statement: 0,
        private: Part {
            start: 50 + filter,
            octets: 0,
        },
    })
}

// The frame of any octets.
fn whole_frame(file: &[u8]) -> Result<Lengths, Refusal>
    ensures { framed result ≡ frame_of file.now }
{
    if file.len() < 50 {
        return Err(Refusal::Length);
    }
    if 1048576 < file.len() {
        return Err(Refusal::Length);
    }
    if octets::num::<4>(file, 0) as usize != file.len() {
        return Err(Refusal::Length);
    }
    header_frame(file)
}

// The header's fields, with what it states of its private extension, and the release extensions from `extensions` on.
fn header_of(file: &[u8], statement: u8, extensions: usize) -> Header
    requires in_bounds { 50 ≤ length file.now }
    requires file_in_bounds { extensions + extensions_of (get_or file.now 8 0) + extensions_of (get_or file.now 9 0) ≤ length file.now }
    ensures { result ≡ header_at file.now statement extensions }
{
    let mut address = [0; 20];
    address.copy_from_slice(&file[27..47]);
    Header {
        high: record::release_at(file, 8, extensions),
        low: record::release_at(file, 9, extensions + extensions_of(file[8])),
        opened: timestamp::unpack(octets::num::<4>(file, 10)),
        appended: timestamp::unpack(octets::num::<4>(file, 14)),
        sequence: octets::num::<4>(file, 22),
        reason: file[26],
        address,
        lost: file[47],
        statement,
    }
}

// Whether a timestamp is wrong, or the length of filter or private octets the reserved one. The writer's test is another: it has octets, and no length field.
fn wrong_value(h: Header, filter: usize, private: Part) -> bool
    ensures { result ≡ wrong_value h filter private }
{
    let opened = timestamp::is_right(h.opened);
    let appended = timestamp::is_right(h.appended);
    !opened || !appended || filter == 65535 || private.octets == 65535
}

// Whether the records that a walk found are as the header says: their number, then high and low.
fn judge_records(h: Header, count: usize, t: Totals) -> Result<(), Refusal>
    ensures { number_of result ≡ first (wrong_records h count (found t)) }
{
    if count != t.count {
        return Err(Refusal::Count);
    }
    if cdrfile::wrong_order(h.high, h.low, t) {
        return Err(Refusal::Order);
    }
    Ok(())
}

// What a file with right lengths holds.
fn read_framed(file: &[u8], f: Lengths) -> Result<Contents, Refusal>
    requires { RightFrame file.now (frame_found f) }
    ensures { answer_of result ≡ read_of file.now }
{
    let private = f.private;
    let header = header_of(file, f.statement, private.start + private.octets);
    if wrong_value(header, f.filter, private) {
        return Err(Refusal::Value);
    }
    let start = f.header;
    let t = record::tally(&file[start..]).ok_or(Refusal::Record)?;
    judge_records(header, octets::num::<4>(file, 18) as usize, t)?;
    Ok(Contents {
        refusal: 0,
        header,
        filter: Part {
            start: 50,
            octets: f.filter,
        },
        private,
        records: Part {
            start,
            octets: file.len() - start,
        },
        count: t.count,
    })
}

// What any octets hold as a CDR file.
fn contents_of(file: &[u8]) -> Result<Contents, Refusal>
    ensures { answer_of result ≡ read_of file.now }
{
    let f = whole_frame(file)?;
    read_framed(file, f)
}

// What any octets hold as a CDR file, or the first of 8 to 13 in order.
pub fn read(file: &[u8]) -> Contents
    ensures { result ≡ read_of file.now }
{
    match contents_of(file) {
        Ok(contents) => contents,
        Err(refusal) => Contents {
            refusal: refusal.number(),
            ..Contents::default()
        },
    }
}

// A part of a file that the reader handed back, such as the filter; a part beyond the file is empty.
pub fn part_of(file: &[u8], p: Part) -> &[u8]
    ensures { result.now ≡ part_of file.now p }
{
    let Some(rest) = file.get(p.start..) else {
        return &[];
    };
    let Some(part) = rest.get(..p.octets) else {
        return &[];
    };
    part
}
