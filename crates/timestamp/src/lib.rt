// Timestamps: their seven fields in a 32-bit word, the local time of a minute, and the four octets that stand in a file.
#![tactic(auto)]

ghost use Rattle.std.specs.Prelude.{◌≡◌, ◌<◌};
ghost use Rattle.timestamp.specs.Timestamp.{Narrow, narrow, right, word_of, fields_of};
ghost use Rattle.timestamp.specs.LocalTime.{timestamp_of};
ghost use Rattle.timestamp.specs.Stamp.{stamp_of, stamped};

use refusals::Refusal;

// The fields from the top bit of the word on. A sign of 1 is plus; the deviation is how far local time is from UTC. C reads this struct: the sign is a
// number.
#[repr(C)]
#[derive(Clone, Copy, Default)]
pub struct Timestamp {
    pub month: u32,
    pub day: u32,
    pub hour: u32,
    pub minute: u32,
    pub sign: u32,
    pub dev_hour: u32,
    pub dev_minute: u32,
}

// What `stamp` answers: a refusal, 0 for none, and the octets, zeros where it refused.
// C reads this struct: a number with the octets beside it, and not a Result.
#[repr(C)]
#[derive(Clone, Copy)]
pub struct Stamped {
    pub refusal: u8,
    pub octets: [u8; 4],
}

// The word of a timestamp: each field is pushed in from the right. A function and not `From`, which can require nothing.
pub fn pack(t: Timestamp) -> u32
    requires { Narrow t }
    ensures { result ≡ word_of t }
{
    let date = (t.month << 5) | t.day;
    let hours = (date << 5) | t.hour;
    let minutes = (hours << 6) | t.minute;
    let signed = (minutes << 1) | t.sign;
    let deviated = (signed << 5) | t.dev_hour;
    (deviated << 6) | t.dev_minute
}

// The timestamp of a word; no `From`, as it stands beside `pack`.
pub fn unpack(w: u32) -> Timestamp
    ensures { result ≡ fields_of w }
{
    Timestamp {
        month: w >> 28,
        day: (w >> 23) & 31,
        hour: (w >> 18) & 31,
        minute: (w >> 12) & 63,
        sign: (w >> 11) & 1,
        dev_hour: (w >> 6) & 31,
        dev_minute: w & 63,
    }
}

// Whether each field fits its bits.
pub fn is_narrow(t: Timestamp) -> bool
    ensures { result ≡ narrow t }
{
    (t.month < 16)
        & (t.day < 32)
        & (t.hour < 32)
        & (t.minute < 64)
        & (t.sign < 2)
        & (t.dev_hour < 32)
        & (t.dev_minute < 64)
}

// Whether a timestamp that was read is right: its day exists in its month. Either sign is.
pub fn is_right(t: Timestamp) -> bool
    ensures { result ≡ right t }
{
    let longest = calendar::longest(t.month);
    (1 <= t.month)
        & (t.month <= 12)
        & (1 <= t.day)
        & (t.day <= longest)
        & (t.hour <= 23)
        & (t.minute <= 59)
        & (t.dev_hour <= 23)
        & (t.dev_minute <= 59)
}

// The timestamp of a minute at an offset. Local time counts from 1999-12-31 00:00, 1,440 minutes before the first minute.
pub fn at(minutes: u32, bias: u32) -> Timestamp
    requires { (minutes < 52596000) × (bias < 2879) }
    ensures { result ≡ timestamp_of minutes bias }
{
    let local = minutes + bias + 1;
    let date = calendar::local_date(local / 1440);
    // The offset and 1,439 is `bias`, so that no number is signed; the sign is 1, plus, where the offset is not negative.
    let deviation = bias.abs_diff(1439);
    Timestamp {
        month: date.month,
        day: date.day,
        hour: local % 1440 / 60,
        minute: local % 60,
        sign: u32::from(1439 <= bias),
        dev_hour: deviation / 60,
        dev_minute: deviation % 60,
    }
}

// The four octets of the timestamp of a minute at an offset, or a refusal: the minute's comes before the offset's.
fn octets_of(minutes: u32, bias: u32) -> Result<[u8; 4], Refusal>
    ensures { stamped result ≡ stamp_of minutes bias }
{
    if 52595999 < minutes {
        return Err(Refusal::Time);
    }
    if 2878 < bias {
        return Err(Refusal::Range);
    }
    Ok(pack(at(minutes, bias)).to_be_bytes())
}

// The four octets of the timestamp of a minute at an offset, or a refusal: 4 for the minute, 2 for the offset.
pub fn stamp(minutes: u32, bias: u32) -> Stamped
    ensures { result ≡ stamp_of minutes bias }
{
    match octets_of(minutes, bias) {
        Ok(octets) => Stamped { refusal: 0, octets },
        Err(refusal) => Stamped {
            refusal: refusal.number(),
            octets: [0; 4],
        },
    }
}
