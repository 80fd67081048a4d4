// Carrying a plan out (document 01, The events): the file that the record turns over closes, the record is written to the
// store, and the file that it fills closes.
ghost use Rattle.std.specs.Prelude.{◌≡◌, true, ◌<◌, is_some, unwrap_or};
ghost use Rattle.octets.specs.Splice.{splice};
ghost use Rattle.filing.specs.Closing.{lost_octet};
ghost use Rattle.filing.specs.Needs.{Closable};
ghost use Rattle.placing.specs.Files.{closed_if, size_if};
ghost use Rattle.placing.specs.Made.{Carried, CarriedOut};
ghost use Rattle.placing.specs.Views.{plan_in};

use crate::{Taker, Target};
use filing::Reason;
use record::RecordHeader;
use state::Route;

// The octets of the route's file where it closes, else none.
pub fn size_if(closes: bool, r: Route) -> usize
    ensures { (result ≡ size_if closes r) × (result < 8589934592) }
{
    if closes { events::closed_size(r) } else { 0 }
}

impl Target {
    // Closes the route's file over the output from `at` on, where there is a reason to. Its records stand in the region.
    fn close_if(self, reason: Option<u8>, store: &[u8], output: &mut [u8], at: usize)
        requires { is_some reason ≡ true → Closable self.node self.route (lost_octet self.route) store.now self.from output.old at }
        ensures { output.new ≡ splice output.old at (closed_if (is_some reason) self.node self.route (unwrap_or reason 1) store.now self.from) }
    {
        if let Some(number) = reason {
            filing::close_file(self.node, self.route, number, store, self.from, output, at);
        }
    }

    // Carries out a plan: the file that closes before the record, the record, and the file that it fills, each where the plan has it, one
    // behind another. The reason is a number, as a file's header has it: any octet is one.
    fn close_around(
        self,
        store: &mut [u8],
        output: &mut [u8],
        turn: Option<u8>,
        taker: Taker,
        h: RecordHeader,
        body: &[u8],
    )
        requires { Carried self.node self.from store.old output.old self.route (plan_in turn taker) h body.now }
        ensures { CarriedOut self.node self.from store.old output.old self.route (plan_in turn taker) h body.now store.new output.new }
    {
        let at = size_if(turn.is_some(), self.route);
        let limit = self.route.settings.limit as usize;
        let used = taker.used as usize;
        self.close_if(turn, store, output, 0);
        filing::append(store, self.from, limit, used, h, body);
        let full = taker.fills.then_some(Reason::MostRecords.number());
        let filled = Target {
            route: taker.holding,
            ..self
        };
        filled.close_if(full, store, output, at);
    }

    // The same. Most records close nothing and are only appended: they do not pay for node and routes laid out in memory, as a closing
    // is given them.
    pub fn carry_out(
        self,
        store: &mut [u8],
        output: &mut [u8],
        turn: Option<u8>,
        taker: Taker,
        h: RecordHeader,
        body: &[u8],
    )
        requires { Carried self.node self.from store.old output.old self.route (plan_in turn taker) h body.now }
        ensures { CarriedOut self.node self.from store.old output.old self.route (plan_in turn taker) h body.now store.new output.new }
    {
        if turn.is_some() || taker.fills {
            self.close_around(store, output, turn, taker, h, body);
        } else {
            let limit = self.route.settings.limit as usize;
            filing::append(store, self.from, limit, taker.used as usize, h, body);
        }
    }
}
