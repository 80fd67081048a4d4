// What a placed record does to its route (document 01, The events), worked out before anything is written.
ghost use Rattle.std.specs.Prelude.{◌≡◌, ◌≤◌, ◌||◌, cond, None, is_some};
ghost use Rattle.events.specs.Rules.{header_for, differs, exceeds};
ghost use Rattle.placing.specs.Plan.{Usable, Suitable, readied, planned, finished_by};
ghost use Rattle.placing.specs.Made.{placed_by};
ghost use Rattle.placing.specs.Views.{reason_of, plan_in, plan_of, fitting};

use crate::file::{appended_route, does_differ, does_exceed, is_full};
use crate::{Done, Plan, Taker};
use events::Arrival;
use filing::Reason;
use record::{RecordHeader, Release};
use state::Route;

// The record header that an arrival describes.
pub fn header_for(a: Arrival) -> RecordHeader
    requires { Usable a }
    ensures { result ≡ header_for a }
{
    RecordHeader {
        release: Release {
            release: a.release as u8,
            extension: a.extension,
            version: a.version as u8,
        },
        format: a.format as u8,
        ts: a.ts as u8,
    }
}

// Why the record, of so many octets, closes the open file first, if it does: its format or release goes before the file's size.
fn turn_for(r: Route, h: RecordHeader, octets: usize) -> Option<Reason>
    requires { octets ≤ 65539 }
    ensures turns { is_some result ≡ (differs r h || exceeds r h octets) }
    ensures reason { reason_of result ≡ cond (differs r h) 5 1 }
{
    if does_differ(r, h) {
        Some(Reason::ReleaseChange)
    } else if does_exceed(r, h, octets) {
        Some(Reason::SizeLimit)
    } else {
        None
    }
}

// The route with an open file for the record.
fn ready(r: Route, turns: bool, t: u32) -> Route
    ensures { result ≡ readied r turns t }
{
    if turns {
        events::opened_route(events::closed_route(r), t)
    } else if r.open {
        r
    } else {
        events::opened_route(r, t)
    }
}

// What a record that is placed does to its route.
pub fn plan_for(r: Route, a: Arrival, body: usize, t: u32) -> Plan
    requires { Suitable r a body t }
    ensures { plan_of result ≡ planned r a body t }
{
    let h = header_for(a);
    let octets = record::header_length_of(h.release) + body;
    let turn = turn_for(r, h, octets);
    let q = ready(r, turn.is_some(), t);
    let holding = appended_route(q, h, octets as u32, t);
    let fills = is_full(holding);
    let taker = Taker {
        used: q.file.octets,
        holding,
        fills,
    };
    Plan { turn, taker }
}

// The route behind the event: closed, if the record fills its file. Whether another closed before it does not matter here.
pub fn finished(taker: Taker) -> Route
    ensures { result ≡ finished_by (plan_in None taker) }
{
    if taker.fills {
        events::closed_route(taker.holding)
    } else {
        taker.holding
    }
}

// What the plan leaves, with the octets of the files that it closes.
pub fn placed_by(p: Plan, octets: usize) -> Done
    ensures { fitting result ≡ placed_by (plan_of p) octets }
{
    Done {
        route: finished(p.taker),
        files: u8::from(p.turn.is_some()) + u8::from(p.taker.fills),
        octets,
    }
}
