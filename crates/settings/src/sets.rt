// Set times of day (document 02, ask 6): those of the settings, tested for refusal 22 and put into the state's words.
ghost use Rattle.std.specs.Prelude.{◌≡◌, [], ◌∷◌, ◌||◌, ◌+◌, ◌-◌, ◌≤◌, ◌<◌, eqb, length, is_ok};
ghost use Rattle.refusals.specs.Number.{number_of};
ghost use Rattle.refusals.specs.Refusal.{◌when◌, first};
ghost use Rattle.state.specs.SetTimes.{set_count};
ghost use Rattle.words.specs.Words.{manager_in};
ghost use Rattle.settings.specs.Settings.{sets_in, set_start, set_follows, set_time_right, wrong_sets};
ghost use Rattle.settings.specs.Sets.{Setting, minute_put, SetsPut};

use crate::Settings;
use refusals::Refusal;
use words::Words;

// Whether set time `j` is of a higher route than the one before it, or later in the day of the same.
fn follows(octets: &[u8], start: usize, j: usize) -> bool
    requires { (start ≡ set_start octets.now j) × (start + 4 ≤ length octets.now) }
    ensures { result ≡ (eqb j 0 || set_follows octets.now (j - 1) j) }
{
    if j == 0 {
        return true;
    }
    let before = octets::num::<2>(octets, start - 2);
    let minute = octets::num::<2>(octets, start + 2);
    (octets[start - 3] < octets[start + 1])
        | ((octets[start - 3] == octets[start + 1]) & (before < minute))
}

// Puts a set minute behind those of its route.
fn put_minute(words: &mut Words, route: usize, minute: u32)
    requires { (route < 8) × (set_count (manager_in words.old).set_times route < 24) }
    ensures { words.new ≡ minute_put words.old route minute }
{
    let count = words::set_count(words, route);
    words[168 + 24 * route + count] = minute;
    words[160 + route] = count as u32 + 1;
}

impl Settings<'_> {
    // Whether set time `j`, which starts at `start`, is right behind those before it, which the words have.
    fn is_set_time_right(&self, start: usize, j: usize, words: &Words) -> bool
        requires { Setting self.now.octets.now self.now.routes j words.now × (start ≡ set_start self.now.octets.now j) × (start + 4 ≤ length self.now.octets.now) }
        ensures { result ≡ set_time_right self.now.octets.now j }
    {
        let octets = self.octets;
        let route = usize::from(octets[start + 1]);
        if self.routes <= route {
            return false;
        }
        let minute = octets::num::<2>(octets, start + 2);
        let follows = follows(octets, start, j);
        let count = words::set_count(words, route);
        (minute <= 1439) & follows & (count < 24)
    }

    // Puts the set times into the words, up to the first that is not right (refusal 22).
    pub fn put_sets(&self, words: &mut Words) -> Result<(), Refusal>
        requires { Setting self.now.octets.now self.now.routes 0 words.old }
        ensures told { number_of result ≡ first ((22 when wrong_sets self.now.octets.now) ∷ []) }
        ensures put { SetsPut self.now.octets.now self.now.routes (sets_in self.now.octets.now) words.new (is_ok result) }
    {
        let octets = self.octets;
        let at = 19 + 41 * self.routes;
        let k = (octets.len() - at) / 4;
        for j in 0..k {
            let start = at + 4 * j;
            if !self.is_set_time_right(start, j, words) {
                return Err(Refusal::SetTime);
            }
            let route = usize::from(octets[start + 1]);
            let minute = octets::num::<2>(octets, start + 2);
            put_minute(words, route, minute);
        }
        Ok(())
    }
}
