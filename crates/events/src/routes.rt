// What an opening and a closing do to a route, and when and with how many octets its file closes (document 01, The events).
ghost use Rattle.std.specs.Prelude.{◌≡◌, ◌<◌, if◌then◌else◌, is_some, IfSome};
ghost use Rattle.filing.specs.Closing.{closed_size};
ghost use Rattle.filing.specs.Reason.{reason_number};
ghost use Rattle.events.specs.Rules.{opened_route, closed_route, due, ending};

use filing::Reason;
use record::Release;
use state::{OpenFile, Route};

// The route with an empty file, which takes the next sequence number; the number after 4,294,967,295 is 0. Losses and unrouted
// records stay: they count since the last file closed.
pub fn opened_route(r: Route, t: u32) -> Route
    ensures { result ≡ opened_route r t }
{
    let configured = r.settings.release;
    let file = OpenFile {
        sequence: r.next,
        opened: t,
        appended: t,
        high: configured,
        low: configured,
        format: 0,
        count: 0,
        octets: 0,
    };
    Route {
        next: r.next.wrapping_add(1),
        open: true,
        file,
        ..r
    }
}

// The route without a file, its losses and its unrouted records cleared.
pub fn closed_route(r: Route) -> Route
    ensures { result ≡ closed_route r }
{
    let none = Release {
        release: 0,
        extension: 0,
        version: 0,
    };
    let file = OpenFile {
        sequence: 0,
        opened: 0,
        appended: 0,
        high: none,
        low: none,
        format: 0,
        count: 0,
        octets: 0,
    };
    Route {
        losses: 0,
        unrouted: 0,
        open: false,
        file,
        ..r
    }
}

// The octets of the route's file when it closes.
pub fn closed_size(r: Route) -> usize
    ensures { result ≡ closed_size r }
{
    let f = r.file;
    let header = state::header_size(r.settings.octets, f.high, f.low);
    header as usize + f.octets as usize
}

// Whether the route's file has reached its open-time limit at time t. The sum is taken in 64 bits.
fn is_due(t: u32, r: Route) -> bool
    ensures { result ≡ due t r }
{
    r.open && 0 < r.settings.age && r.file.opened as u64 + r.settings.age as u64 <= t as u64
}

// Whether a TICK at time t closes the route's file, and why: first where the open-time limit has been reached; then where `met`, a set minute
// has fallen since its opening.
pub fn ending(t: u32, r: Route, met: bool) -> Option<Reason>
    ensures ends { is_some result ≡ ending t r met }
    ensures reason { IfSome result (λ reason. reason_number reason ≡ (if due t r then 2 else 0)) }
{
    if is_due(t, r) {
        Some(Reason::OpenTime)
    } else if r.open && met {
        Some(Reason::Normal)
    } else {
        None
    }
}

// And with how many octets, 0 where it does not.
pub fn end_octets(t: u32, r: Route, met: bool) -> usize
    ensures { (result ≡ (if ending t r met then closed_size r else 0)) × (result < 8589934592) }
{
    if ending(t, r, met).is_some() {
        closed_size(r)
    } else {
        0
    }
}
