// The manager's files: a record appended to its route's region of the store, and a file closed into the output.
#![tactic(auto)]

ghost use Rattle.std.specs.Prelude.{◌≡◌, ◌++◌, ◌+◌, ◌≤◌, length, take};
ghost use Rattle.octets.specs.Splice.{splice};
ghost use Rattle.record.specs.Record.{record_octets};
ghost use Rattle.filing.specs.Closing.{filler, header_for, lost_octet};
ghost use Rattle.filing.specs.Closed.{closed_from};
ghost use Rattle.filing.specs.Needs.{Appendable, Fitting, Headed, Closable};
ghost use Rattle.filing.specs.Reason.{reason_number};

use cdrfile::Header;
use record::RecordHeader;
use state::{Node, Route};

// Why a file closes (document 01, File header), with the number that its header has.
#[derive(Clone, Copy, PartialEq, Eq)]
pub enum Reason {
    Normal = 0,
    SizeLimit = 1,
    OpenTime = 2,
    MostRecords = 3,
    Manual = 4,
    ReleaseChange = 5,
    Abnormal = 128,
    FileSystem = 129,
    Storage = 130,
    Integrity = 131,
}

impl Reason {
    pub fn number(self) -> u8
        ensures { result ≡ reason_number self }
    {
        self as u8
    }
}

// Writes the first n octets of a header's five, which are four or all of them: copies of a known length, which are compiled to stores.
fn put_header(part: &mut [u8], used: usize, header: [u8; 5], n: usize)
    requires { (used + n ≤ length part.old) × (4 ≤ n) × (n ≤ 5) }
    ensures { part.new ≡ splice part.old used (take n header) }
{
    if n == 5 {
        octets::copy(part, used, &header);
    } else {
        octets::copy(part, used, &header[..4]);
    }
}

// Writes a record over the part of the store that is lent, from `used` on.
fn append_to(part: &mut [u8], used: usize, h: RecordHeader, body: &[u8])
    requires { Fitting part.old used h body.now }
    ensures { part.new ≡ splice part.old used (record_octets (record { header = h; body = body.now })) }
{
    let header = record::header_octets(h, body.len());
    let n = record::header_length_of(h.release);
    put_header(part, used, header, n);
    octets::copy(part, used + n, body);
}

// Appends a record to its route's region of the store, which starts at `base` and is `limit` octets long: it goes behind the
// `used` octets of the file's records there. docs/DECISIONS.md names this function and `close_file`: their store with a region's start, and
// output with a place, stay parameters of their own.
pub fn append(
    store: &mut [u8],
    base: usize,
    limit: usize,
    used: usize,
    h: RecordHeader,
    body: &[u8],
)
    requires { Appendable store.old base limit used h body.now }
    ensures { store.new ≡ splice store.old (base + used) (record_octets (record { header = h; body = body.now })) }
{
    let end = base + limit;
    append_to(&mut store[base..end], used, h, body);
}

// The 20 octets of the address: the fixed ones, and the node's 16 behind them.
fn address_of(node: [u8; 16]) -> [u8; 20]
    ensures { result ≡ filler ++ node }
{
    let mut address = [0; 20];
    address[..4].copy_from_slice(b"\xFF\xFF\xFF\xFF");
    address[4..].copy_from_slice(&node);
    address
}

// The header's fields at a closing. `lost` is the route's lost indicator. The private extension has the loss counts' octets.
fn header_for(n: Node, r: Route, reason: u8, lost: u8) -> Header
    requires { Headed n r lost }
    ensures { result ≡ header_for n r reason }
{
    let f = r.file;
    let opened = timestamp::at(f.opened, n.bias);
    let appended = timestamp::at(f.appended, n.bias);
    let address = address_of(n.address);
    Header {
        high: f.high,
        low: f.low,
        opened,
        appended,
        sequence: f.sequence,
        reason,
        address,
        lost,
        statement: 2,
    }
}

// Closes the route's file over the output from `at` on. The file's records stand in the store from `base` on, the start of the
// route's region, and `lost` is the route's lost indicator.
fn close_into(
    n: Node,
    r: Route,
    reason: u8,
    lost: u8,
    store: &[u8],
    base: usize,
    output: &mut [u8],
    at: usize,
)
    requires { Closable n r lost store.now base output.old at }
    ensures { output.new ≡ splice output.old at (closed_from n r reason store.now base) }
{
    let h = header_for(n, r, reason, lost);
    let filter = r.settings.filter;
    let octets = r.settings.octets as usize;
    let counts = counts::octets_of(r.losses, r.unrouted);
    let end = base + r.file.octets as usize;
    cdrfile::lay_out(
        h,
        &filter[..octets],
        &counts,
        &store[base..end],
        r.file.count as usize,
        &mut output[at..],
    );
}

// Closes the file of a route with a reason over the output from `at` on; its records stand from `base` on. The reason is a number, since this function
// promises its file for any (docs/DECISIONS.md names it).
pub fn close_file(
    n: Node,
    r: Route,
    reason: u8,
    store: &[u8],
    base: usize,
    output: &mut [u8],
    at: usize,
)
    requires { Closable n r (lost_octet r) store.now base output.old at }
    ensures { output.new ≡ splice output.old at (closed_from n r reason store.now base) }
{
    let lost = state::lost_indicator(r.losses, 0 < r.unrouted);
    close_into(n, r, reason, lost, store, base, output, at);
}
