// Records: the record header, the step over the part of a file that starts at a cursor, the order of releases, and the walk.
#![tactic(auto)]

ghost use Rattle.std.specs.Prelude.{◌≡◌, ◌+◌, ◌*◌, ◌/◌, ◌≤◌, ◌<◌, length, get_or, drop};
ghost use Rattle.record.specs.Release.{narrow_release, rank, release_octet, extension_length, header_length, release_at};
ghost use Rattle.record.specs.Step.{step_of, step_at, body_at, stepped};
ghost use Rattle.record.specs.Walk.{tally_of, answer_of};
ghost use Rattle.record.specs.HeaderOctets.{NarrowHeader, five_octets};

use refusals::Refusal;

// A release identifier (3 bits), its extension (0 unless the release is 7) and a version identifier (5 bits).
#[repr(C)]
#[derive(Clone, Copy, PartialEq, Eq, Default)]
pub struct Release {
    pub release: u8,
    pub extension: u8,
    pub version: u8,
}

// What a record header says beside the body's length: data record format (3 bits) and TS number (5 bits).
#[repr(C)]
#[derive(Clone, Copy, PartialEq, Eq, Default)]
pub struct RecordHeader {
    pub release: Release,
    pub format: u8,
    pub ts: u8,
}

// The answer of a step: refusal 0 with the header's fields and the octets of header and body, or 11 with zeros.
// C reads this struct: a number with the rest beside it, and not an Option.
#[repr(C)]
#[derive(Clone, Copy)]
pub struct Stepped {
    pub refusal: u8,
    pub fields: RecordHeader,
    pub header: usize,
    pub body: usize,
}

// A whole record at the start of some octets: its header's fields, and the octets of header and body.
#[derive(Clone, Copy)]
pub struct Whole {
    pub fields: RecordHeader,
    pub header: usize,
    pub body: usize,
}

// What a walk over records one behind another found: their number, and the greatest and the least place in the order of releases.
#[derive(Clone, Copy)]
pub struct Totals {
    pub count: usize,
    pub high: u32,
    pub low: u32,
}

// Whether a release and its version fit their bits, with no extension below release 7.
pub fn is_narrow_release(r: Release) -> bool
    ensures { result ≡ narrow_release r }
{
    (r.release <= 7) & (r.version <= 31) & ((r.release == 7) | (r.extension == 0))
}

// The place of a release in the order by release, then extension, then version.
pub fn rank_of(r: Release) -> u32
    ensures { result ≡ rank r }
{
    (r.release as u32 * 256 + r.extension as u32) * 32 + r.version as u32
}

// The octet of release and version.
pub fn release_octet(r: Release) -> u8
    requires { (r.release < 8) × (r.version < 32) }
    ensures { result ≡ release_octet r }
{
    r.release * 32 + r.version
}

// How many extension octets go with a release identifier: one with 7, and else none.
pub fn extension_length(release: u8) -> usize
    ensures is { result ≡ extension_length release }
    ensures most { result ≤ 1 }
{
    usize::from(release == 7)
}

// The release and version of the octet `at`, with its extension at `extension` if the release is 7.
pub fn release_at(octets: &[u8], at: usize, extension: usize) -> Release
    requires at_in_bounds { at < length octets.now }
    requires extension_in_bounds { extension + extension_length (get_or octets.now at 0 / 32) ≤ length octets.now }
    ensures { result ≡ release_at octets.now at extension }
{
    let octet = octets[at];
    let release = octet / 32;
    let version = octet % 32;
    if release == 7 {
        let extension = octets[extension];
        Release {
            release,
            extension,
            version,
        }
    } else {
        Release {
            release,
            extension: 0,
            version,
        }
    }
}

// The whole record with which the octets begin, if one does.
pub fn whole_record(part: &[u8]) -> Option<Whole>
    ensures { stepped result ≡ step_of part.now }
{
    if part.len() < 4 {
        return None;
    }
    let body = octets::num::<2>(part, 0) as usize;
    if body == 65535 {
        return None;
    }
    let header = 4 + extension_length(part[2] / 32);
    if part.len() < header + body {
        return None;
    }
    let release = release_at(part, 2, 4);
    let fields = RecordHeader {
        release,
        format: part[3] / 32,
        ts: part[3] % 32,
    };
    Some(Whole {
        fields,
        header,
        body,
    })
}

// The record that begins with the part, or 11 where no whole record does.
pub fn step(part: &[u8]) -> Stepped
    ensures { result ≡ step_of part.now }
{
    match whole_record(part) {
        Some(found) => Stepped {
            refusal: 0,
            fields: found.fields,
            header: found.header,
            body: found.body,
        },
        None => Stepped {
            refusal: Refusal::Record.number(),
            fields: RecordHeader::default(),
            header: 0,
            body: 0,
        },
    }
}

// A file from an offset on; the empty part at or past its end.
pub fn rest_at(file: &[u8], at: usize) -> &[u8]
    ensures { result.now ≡ drop at file.now }
{
    file.get(at..).unwrap_or(&[])
}

// The step at any offset of a file; at or past the end it is 11.
pub fn step_at(file: &[u8], at: usize) -> Stepped
    ensures { result ≡ step_at file.now at }
{
    step(rest_at(file, at))
}

// The body of the record at any offset of a file, as a part of the file; the empty part where the step refuses.
pub fn body_at(file: &[u8], at: usize) -> &[u8]
    ensures { result.now ≡ body_at file.now at }
{
    let part = rest_at(file, at);
    let Some(found) = whole_record(part) else {
        return &[];
    };
    let start = found.header;
    let end = start + found.body;
    &part[start..end]
}

// Walks records one behind another. Where one starts is known only from the one before it, so no range goes over them.
pub fn tally(records: &[u8]) -> Option<Totals>
    ensures { answer_of result ≡ tally_of records.now }
{
    let mut rest = records;
    let mut count: usize = 0;
    let mut high: u32 = 0;
    let mut low: u32 = 65535;
    while !rest.is_empty() {
        let next = whole_record(rest)?;
        let rank = rank_of(next.fields.release);
        high = high.max(rank);
        low = low.min(rank);
        count += 1;
        let start = next.header + next.body;
        rest = &rest[start..];
    }
    Some(Totals { count, high, low })
}

// How many octets the header of a record of this release has.
pub fn header_length_of(r: Release) -> usize
    ensures { result ≡ header_length r }
{
    4 + extension_length(r.release)
}

// The octets of a record header before a body of so many octets, with the extension behind them whether it is present or
// not: as many of them as `header_length_of` says are the header, since there is no heap for four octets or five.
pub fn header_octets(h: RecordHeader, body: usize) -> [u8; 5]
    requires { NarrowHeader h }
    ensures { result ≡ five_octets h body }
{
    let [high, low] = octets::be::<2>(body);
    [
        high,
        low,
        release_octet(h.release),
        h.format * 32 + h.ts,
        h.release.extension,
    ]
}
