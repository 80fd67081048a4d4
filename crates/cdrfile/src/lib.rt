// A CDR file: the fields of its header, and its octets laid out over the start of an output.
#![tactic(auto)]

ghost use Rattle.std.specs.Prelude.{◌≡◌, ◌+◌, ◌≤◌, ◌<◌, length};
ghost use Rattle.octets.specs.Splice.{splice};
ghost use Rattle.record.specs.Release.{extension_octets};
ghost use Rattle.record.specs.Walk.{found};
ghost use Rattle.cdrfile.specs.File.{fixed_octets, header_length, private_octets, file_octets};
ghost use Rattle.cdrfile.specs.Order.{wrong_order};
ghost use Rattle.cdrfile.specs.Needs.{Writable, Layable};

use record::{Release, Totals};
use timestamp::Timestamp;

// The header's fields that are not worked out from the rest: high and low release, the times of opening and of the last
// append, the file sequence number, the closure reason, the node's 20 address octets and the lost indicator; and what it states
// of its private extension: 0 there is none, 1 an empty one, 2 one with octets. C reads this struct: the statement is a number and not an enum.
#[repr(C)]
#[derive(Clone, Copy, Default)]
pub struct Header {
    pub high: Release,
    pub low: Release,
    pub opened: Timestamp,
    pub appended: Timestamp,
    pub sequence: u32,
    pub reason: u8,
    pub address: [u8; 20],
    pub lost: u8,
    pub statement: u8,
}

// Whether high or low is wrong for the records that a walk found.
pub fn wrong_order(high: Release, low: Release, t: Totals) -> bool
    ensures { result ≡ wrong_order high low (found t) }
{
    let highest = record::rank_of(high);
    let lowest = record::rank_of(low);
    if t.count == 0 {
        highest < lowest
    } else {
        highest != t.high || lowest != t.low
    }
}

// How many octets the private extension takes in a header.
fn private_length(statement: u8, private: &[u8]) -> usize
    requires { length private.now ≤ 1048576 }
    ensures { (result ≡ length (private_octets statement private.now)) × (result ≤ 2 + length private.now) }
{
    if statement == 0 { 0 } else { 2 + private.len() }
}

// How many octets a file's header has. C hands the writer header, filter and private octets one by one, and they come on so: a struct of the three would
// be made for each call.
pub fn header_length(h: Header, filter: &[u8], private: &[u8]) -> usize
    requires { (length filter.now ≤ 1048576) × (length private.now ≤ 1048576) }
    ensures { result ≡ header_length h filter.now private.now }
{
    let private = private_length(h.statement, private);
    let high = record::extension_length(h.high.release);
    let low = record::extension_length(h.low.release);
    50 + filter.len() + private + high + low
}

// Octets 1 to 50 of a file.
fn fixed_octets(h: Header, length: u32, header: u32, count: u32, filter: usize) -> [u8; 50]
    requires { Writable h }
    ensures { result ≡ fixed_octets length header count filter h }
{
    let mut fixed = [0; 50];
    octets::copy(&mut fixed, 0, &length.to_be_bytes());
    octets::copy(&mut fixed, 4, &header.to_be_bytes());
    fixed[8] = record::release_octet(h.high);
    fixed[9] = record::release_octet(h.low);
    octets::copy(&mut fixed, 10, &timestamp::pack(h.opened).to_be_bytes());
    octets::copy(&mut fixed, 14, &timestamp::pack(h.appended).to_be_bytes());
    octets::copy(&mut fixed, 18, &count.to_be_bytes());
    octets::copy(&mut fixed, 22, &h.sequence.to_be_bytes());
    fixed[26] = h.reason;
    octets::copy(&mut fixed, 27, &h.address);
    fixed[47] = h.lost;
    octets::copy(&mut fixed, 48, &octets::be::<2>(filter));
    fixed
}

// Writes the private extension, if any, over the output from `at` on.
fn put_private(output: &mut [u8], at: usize, statement: u8, private: &[u8])
    requires { at + length (private_octets statement private.now) ≤ length output.old }
    ensures { output.new ≡ splice output.old at (private_octets statement private.now) }
{
    if statement == 0 {
        return;
    }
    octets::copy(output, at, &octets::be::<2>(private.len()));
    octets::copy(output, at + 2, private);
}

// Writes the extension of a release, if any, over the output from `at` on.
fn put_extension(output: &mut [u8], at: usize, r: Release)
    requires { at + length (extension_octets r) ≤ length output.old }
    ensures { output.new ≡ splice output.old at (extension_octets r) }
{
    if r.release == 7 {
        output[at] = r.extension;
    }
}

// Lays a file out over the start of the output. The records stand in `body`, one behind another, and number `count`.
pub fn lay_out(
    h: Header,
    filter: &[u8],
    private: &[u8],
    body: &[u8],
    count: usize,
    output: &mut [u8],
)
    requires { Layable h filter.now private.now body.now count output.old }
    ensures { output.new ≡ splice output.old 0 (file_octets h filter.now private.now body.now count) }
{
    let header = header_length(h, filter, private);
    let total = header + body.len();
    let fixed = fixed_octets(h, total as u32, header as u32, count as u32, filter.len());
    octets::copy(output, 0, &fixed);
    octets::copy(output, 50, filter);
    let behind = 50 + filter.len();
    put_private(output, behind, h.statement, private);
    let high = behind + private_length(h.statement, private);
    put_extension(output, high, h.high);
    let low = high + record::extension_length(h.high.release);
    put_extension(output, low, h.low);
    octets::copy(output, header, body);
}
