// Set times of day (document 02, ask 6): whether one has fallen in a file's time.
ghost use Rattle.std.specs.Prelude.{◌≡◌, ◌<◌, ◌≤◌};
ghost use Rattle.words.specs.Words.{manager_in};
ghost use Rattle.state.specs.SetTimes.{set_count};
ghost use Rattle.events.specs.Met.{fallen, falls_at, met, Meetable};

use words::{Words, set_count, set_minute};

// How often a minute of day has fallen up to a time.
fn fallen(bias: u32, minute: u32, time: u32) -> u32
    requires { (bias ≤ 2878) × (minute ≤ 1439) × (time < 2147483648) }
    ensures { result ≡ fallen bias minute time }
{
    (time + bias + 1 + 1440 - minute) / 1440
}

// Whether route i's set minute j has fallen behind the opening of a file and not behind `time`.
fn does_fall(words: &Words, i: usize, j: usize, bias: u32, opened: u32, time: u32) -> bool
    requires { Meetable words.now i bias opened time × (j < set_count (manager_in words.now).set_times i) }
    ensures { result ≡ falls_at (manager_in words.now).set_times i bias opened time j }
{
    let minute = set_minute(words, i, j);
    fallen(bias, minute, opened) < fallen(bias, minute, time)
}

// Whether one of route i's set minutes has. Each is asked, whatever the others say: so the loop has no branch.
pub fn is_met(words: &Words, i: usize, bias: u32, opened: u32, time: u32) -> bool
    requires { Meetable words.now i bias opened time }
    ensures { result ≡ met (manager_in words.now).set_times i bias opened time }
{
    let mut any = false;
    for j in 0..set_count(words, i) {
        any |= does_fall(words, i, j, bias, opened, time);
    }
    any
}
