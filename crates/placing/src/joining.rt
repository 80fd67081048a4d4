// A record that joins the open file and changes nothing else of its route (document 01, The events), as most do: no plan is made for it, and
// what is left of the route needs no packing anew.
ghost use Rattle.std.specs.Prelude.{◌≡◌, true, ◌+◌, ◌≤◌, ◌<◌, ◌^◌, length};
ghost use Rattle.octets.specs.Splice.{splice};
ghost use Rattle.record.specs.Record.{record_octets};
ghost use Rattle.events.specs.Rules.{header_for, record_size};
ghost use Rattle.events.specs.Receive.{record_of};
ghost use Rattle.placing.specs.Plan.{Suitable};
ghost use Rattle.placing.specs.Joining.{joins, joined_route};

use crate::file::joined_route;
use crate::planning::header_for;
use events::Arrival;
use record::RecordHeader;
use state::Route;

// Whether a record of this header and so many octets is like the records of the open file, which are of one release, and neither turns the
// file over nor fills it.
fn is_like(r: Route, h: RecordHeader, octets: usize) -> bool
    requires { octets ≤ 65539 }
    ensures { result ≡ joins r h octets }
{
    let f = r.file;
    let high = f.high == h.release;
    let low = f.low == h.release;
    let header = state::header_size(r.settings.octets, h.release, h.release);
    let size = header as usize + f.octets as usize + octets;
    r.open
        & ((0 < f.count)
            & ((f.format == h.format)
                & (high
                    & (low
                        & ((size <= r.settings.limit as usize)
                            & !(f.count as usize + 1 == r.settings.most as usize))))))
}

// Whether a record with so many octets of body joins the open file. The test stands beside `join`, which needs it: it is made once. Route,
// arrival, body and time stay apart, with what makes them suitable in a clause: in a struct the definitions, which take them one by one, would
// name each by its place, which is no plainer.
pub fn does_join(r: Route, a: Arrival, body: usize, t: u32) -> bool
    requires { Suitable r a body t }
    ensures { result ≡ joins r (header_for a) (record_size a body) }
{
    let h = header_for(a);
    let octets = record::header_length_of(h.release) + body;
    is_like(r, h, octets)
}

// Puts such a record behind those of the open file of r, whose region starts at `from`; the route that is left.
pub fn join(from: usize, r: Route, store: &mut [u8], t: u32, a: Arrival, body: &[u8]) -> Route
    requires { Suitable r a (length body.now) t × (from + r.settings.limit ≤ length store.old) × (joins r (header_for a) (record_size a (length body.now)) ≡ true) }
    ensures { (result ≡ joined_route r (record_size a (length body.now)) t) × (store.new ≡ splice store.old (from + r.file.octets) (record_octets (record_of a body.now))) }
{
    let h = header_for(a);
    let octets = record::header_length_of(h.release) + body.len();
    let limit = r.settings.limit as usize;
    let used = r.file.octets as usize;
    filing::append(store, from, limit, used, h, body);
    joined_route(r, octets as u32, t)
}
