// Losses (document 01, Routing and loss): which routed records are lost, and the indicator that a file's header carries.
ghost use Rattle.std.specs.Prelude.{◌≡◌};
ghost use Rattle.state.specs.Loss.{lost, indicator};

use crate::RouteSettings;
use crate::size::header_size;
use record::Release;

// Whether a record with this mark, release and body, routed to a route of these settings, is lost. A longer body than 65,534
// is told first, so that the sum behind it fits.
#[tactic(auto, using(record::specs::HeaderOctets::header_most, crate::specs::Size::size_most))]
pub fn is_lost(s: RouteSettings, mark: u32, r: Release, body: usize) -> bool
    ensures { result ≡ lost s.limit s.octets mark r body }
{
    if 65534 < body {
        return true;
    }
    let header = header_size(s.octets, r, r) as usize;
    let octets = record::header_length_of(r) + body;
    (mark == 1) | ((s.limit as usize) < header + octets)
}

// The lost indicator of so many known losses, of which seven bits hold 127 at most; `noted` where there was an unrouted record.
pub fn lost_indicator(losses: u32, noted: bool) -> u8
    ensures { result ≡ indicator losses noted }
{
    let known = losses.min(127) as u8;
    match (noted, losses) {
        (true, 0) => 128,
        (true, _) => known,
        (false, 0) => 0,
        (false, _) => 128 + known,
    }
}
