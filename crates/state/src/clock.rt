// The effective time (document 01, The events).
ghost use Rattle.std.specs.Prelude.{◌≡◌, max};

// The later of the event's time and the last time.
pub fn effective_time(last: u32, time: u32) -> u32
    ensures { result ≡ max last time }
{
    last.max(time)
}
