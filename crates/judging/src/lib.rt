// What every event tests first (document 01, Refusals): that the state is within its bounds, the store as long as all regions, and the time
// in range. That a number of routes is at most eight is asked in many clauses, here and in the crates above: a struct of it would be made and taken apart
// in each loop, which is no plainer.
#![tactic(auto)]

mod below;
mod bounds;
mod filters;
mod ranges;
mod regions;
mod sets;

ghost use Rattle.std.specs.Prelude.{◌≡◌, [], length};
ghost use Rattle.refusals.specs.Number.{number_of};
ghost use Rattle.refusals.specs.Refusal.{first};
ghost use Rattle.state.specs.Common.{judged, common};
ghost use Rattle.words.specs.Words.{manager_in};

pub use below::all_below;
pub use bounds::{routes_right, state_right};
pub use filters::are_distinct;
use refusals::Refusal;
pub use regions::{region_base, regions_of};
use words::Words;

// The first of 18 and 16 that applies; `store` is the store's length. A packet is judged once.
pub fn judge_state(words: &Words, store: usize) -> Result<(), Refusal>
    ensures { number_of result ≡ first (judged (manager_in words.now) store []) }
{
    if !state_right(words) {
        return Err(Refusal::State);
    }
    if store < regions_of(words) {
        return Err(Refusal::Store);
    }
    Ok(())
}

// The same on words that are lent as a slice, by the refusal's number, or 0. Were they not as many as a state has, it would be 18.
pub fn state_refusal(words: &[u32], store: usize) -> u8
    requires { length words.now ≡ 360 }
    ensures { result ≡ first (judged (manager_in words.now) store []) }
{
    let Some(words) = words.as_array::<360>() else {
        return Refusal::State.number();
    };
    match judge_state(words, store) {
        Ok(()) => 0,
        Err(refusal) => refusal.number(),
    }
}

// The first of 18, 16 and 4 that applies.
pub fn judge(words: &Words, store: usize, time: u32) -> Result<(), Refusal>
    ensures { number_of result ≡ first (common (manager_in words.now) store time []) }
{
    judge_state(words, store)?;
    if 52595999 < time {
        return Err(Refusal::Time);
    }
    Ok(())
}
