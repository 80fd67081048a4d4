// The store's regions (document 01, The events).
ghost use Rattle.std.specs.Prelude.{◌≡◌, ◌≤◌};
ghost use Rattle.state.specs.Manager.{base, regions};
ghost use Rattle.words.specs.Words.{manager_in};

use words::{Words, count_of, settings_at};

// Where the region of route n starts; for the number of routes, where the last region ends.
pub fn region_base(words: &Words, n: usize) -> usize
    requires { n ≤ 8 }
    ensures { result ≡ base (manager_in words.now) n }
{
    let mut start: usize = 0;
    for i in 0..n {
        start += settings_at(words, i).limit as usize;
    }
    start
}

// The length of all regions, in any state.
pub fn regions_of(words: &Words) -> usize
    ensures { result ≡ regions (manager_in words.now) }
{
    region_base(words, count_of(words).min(8))
}
