// Placing a record in its route's file (document 01, The events): planned first, then written.
#![tactic(auto)]

mod carrying;
mod file;
mod joining;
mod planning;

ghost use Rattle.std.specs.Prelude.{◌≡◌, length, IfErr};
ghost use Rattle.std.specs.Option.{option_map};
ghost use Rattle.refusals.specs.Number.{number};
ghost use Rattle.filing.specs.Reason.{reason_number};
ghost use Rattle.placing.specs.Plan.{Placeable};
ghost use Rattle.placing.specs.Made.{left, place_of};
ghost use Rattle.placing.specs.Views.{placed_of};

use events::Arrival;
use filing::Reason;
pub use joining::{does_join, join};
pub use planning::header_for;
use refusals::Refusal;
use state::{Node, Route};

// The file that takes a record: how many octets of records stand before it there, the route with it in that file, and whether this fills the file.
#[derive(Clone, Copy)]
pub struct Taker {
    pub used: u32,
    pub holding: Route,
    pub fills: bool,
}

// What a placed record does to its route: why it closes the open file first, if it does, and what becomes of the file that takes it.
#[derive(Clone, Copy)]
struct Plan {
    turn: Option<Reason>,
    taker: Taker,
}

impl Plan {
    // The number of the reason why the open file closes first, if it does.
    fn turn_number(self) -> Option<u8>
        ensures { result ≡ option_map reason_number self.turn }
    {
        self.turn.map(Reason::number)
    }
}

// What placing a record leaves of its route, and the number and the octets of the files that it closes.
#[derive(Clone, Copy)]
pub struct Done {
    pub route: Route,
    pub files: u8,
    pub octets: usize,
}

// The same, or that the files do not fit the output, with the octets that they need.
#[derive(Clone, Copy)]
pub struct Placed {
    pub fits: bool,
    pub route: Route,
    pub files: u8,
    pub octets: usize,
}

// Where a record is placed: on a route, whose region of the store starts at `from`, and whose files are the node's.
#[derive(Clone, Copy)]
pub struct Target {
    pub node: Node,
    pub from: usize,
    pub route: Route,
}

impl Target {
    // Places a record: nothing is done where the files that it closes are longer than the output, and the refusal has the octets that they
    // need.
    pub fn place(
        self,
        store: &mut [u8],
        output: &mut [u8],
        t: u32,
        a: Arrival,
        body: &[u8],
    ) -> Result<Done, Refusal>
        requires { Placeable self.node self.from self.route (length store.old) t a (length body.now) }
        ensures placed { left (placed_of self.route result) store.new output.new ≡ place_of self.node self.from self.route store.old output.old t a body.now }
        ensures refused { IfErr result (λ refusal. number refusal ≡ 17) }
    {
        let p = planning::plan_for(self.route, a, body.len(), t);
        let before = carrying::size_if(p.turn.is_some(), self.route);
        let behind = carrying::size_if(p.taker.fills, p.taker.holding);
        let octets = before + behind;
        if output.len() < octets {
            return Err(Refusal::Output(octets));
        }
        let h = planning::header_for(a);
        let turn = p.turn_number();
        self.carry_out(store, output, turn, p.taker, h, body);
        Ok(planning::placed_by(p, octets))
    }
}

// Places a record on the route r, whose region starts at `from`, as `Target::place` does, and says by a flag whether its files fit the output.
pub fn place(
    n: Node,
    from: usize,
    r: Route,
    store: &mut [u8],
    output: &mut [u8],
    t: u32,
    a: Arrival,
    body: &[u8],
) -> Placed
    requires { Placeable n from r (length store.old) t a (length body.now) }
    ensures { left result store.new output.new ≡ place_of n from r store.old output.old t a body.now }
{
    let target = Target {
        node: n,
        from,
        route: r,
    };
    match target.place(store, output, t, a, body) {
        Ok(done) => Placed {
            fits: true,
            route: done.route,
            files: done.files,
            octets: done.octets,
        },
        Err(refusal) => Placed {
            fits: false,
            route: r,
            files: 0,
            octets: refusal.needed(),
        },
    }
}
