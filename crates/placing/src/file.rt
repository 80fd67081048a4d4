// The rules of a file that takes a record (document 01, The events): its high and low, when it closes with 5, 1 or 3, and what
// it is with the record.
ghost use Rattle.std.specs.Prelude.{◌≡◌, ◌+◌, ◌≤◌, ◌<◌, ◌^◌};
ghost use Rattle.events.specs.Rules.{high_with, low_with, appended_route, differs, exceeds, full};
ghost use Rattle.placing.specs.Joining.{joined_route};

use record::{RecordHeader, Release};
use state::{OpenFile, Route};

// High and low of a file with one record more; an empty file takes the record's release, whatever was configured.
fn range_with(f: OpenFile, r: Release) -> (Release, Release)
    ensures high { result.0 ≡ high_with f r }
    ensures low { result.1 ≡ low_with f r }
{
    if f.count == 0 {
        return (r, r);
    }
    let new = record::rank_of(r);
    let high = if record::rank_of(f.high) < new {
        r
    } else {
        f.high
    };
    let low = if new < record::rank_of(f.low) {
        r
    } else {
        f.low
    };
    (high, low)
}

// Whether the record closes the open file with 5: the file has records, and another format, or, with the flag, another release.
pub fn does_differ(r: Route, h: RecordHeader) -> bool
    ensures { result ≡ differs r h }
{
    let f = r.file;
    let high = record::rank_of(f.high);
    let new = record::rank_of(h.release);
    r.open && 0 < f.count && (f.format != h.format || r.settings.flag == 1 && high != new)
}

// Whether the open file with the record, of so many octets, would exceed the size limit. Its header is that of the new high and
// low. That they are at most 65,539 is asked in three clauses: a struct of one number
// is no plainer.
pub fn does_exceed(r: Route, h: RecordHeader, octets: usize) -> bool
    requires { octets ≤ 65539 }
    ensures { result ≡ exceeds r h octets }
{
    let f = r.file;
    let (high, low) = range_with(f, h.release);
    let header = state::header_size(r.settings.octets, high, low);
    r.open && (r.settings.limit as usize) < header as usize + f.octets as usize + octets
}

// The route with one record more, of so many octets, in its file, which has such records already.
pub fn joined_route(r: Route, octets: u32, t: u32) -> Route
    requires { (r.file.count + 1 < 2 ^ 32) × (r.file.octets + octets < 2 ^ 32) }
    ensures { result ≡ joined_route r octets t }
{
    let f = r.file;
    let file = OpenFile {
        appended: t,
        count: f.count + 1,
        octets: f.octets + octets,
        ..f
    };
    Route { file, ..r }
}

// The route with any record in its file.
pub fn appended_route(r: Route, h: RecordHeader, octets: u32, t: u32) -> Route
    requires { (r.file.count + 1 < 2 ^ 32) × (r.file.octets + octets < 2 ^ 32) }
    ensures { result ≡ appended_route r h octets t }
{
    let (high, low) = range_with(r.file, h.release);
    let q = joined_route(r, octets, t);
    let file = OpenFile {
        high,
        low,
        format: h.format,
        ..q.file
    };
    Route { file, ..q }
}

// Whether the file's count equals its limit: it closes with 3.
pub fn is_full(r: Route) -> bool
    ensures { result ≡ full r }
{
    0 < r.settings.most && r.file.count == r.settings.most
}
