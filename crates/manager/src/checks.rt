// What OPEN and CLOSE test before they look at the route (document 01, Refusals).
ghost use Rattle.std.specs.Prelude.{◌≡◌};
ghost use Rattle.refusals.specs.Refusal.{first};
ghost use Rattle.refusals.specs.Number.{number_of};
ghost use Rattle.words.specs.Words.{manager_in};
ghost use Rattle.events.specs.Cases.{route_first};

use refusals::Refusal;
use words::Words;

// The first of 18, 16, 4 and 6 that applies. The four go one by one, as C hands them and as the definitions take them.
pub fn judge_route(words: &Words, store: usize, time: u32, route: u32) -> Result<(), Refusal>
    ensures { number_of result ≡ first (route_first (manager_in words.now) store time route) }
{
    judging::judge(words, store, time)?;
    if words::count_of(words) <= route as usize {
        return Err(Refusal::Route);
    }
    Ok(())
}
