// File names (document 02, ask 1; 000, 6.2): a writer and a reader over any octets and any field values.
#![tactic(auto)]

mod reading;
mod right;
mod spelling;
mod writing;

pub use reading::read;
pub use writing::write;

// What a name says beside its node identifier and private part: the running count; the local date and time of closing; the sign
// of the local time's differential from UTC, 1 for plus and 0 for minus, and its hours and minutes; and whether the private part
// is there. C reads this struct and the two below: numbers, and no enum, Option or Result.
#[repr(C)]
#[derive(Clone, Copy, Default)]
pub struct Fields {
    pub count: u32,
    pub year: u32,
    pub month: u32,
    pub day: u32,
    pub hour: u32,
    pub minute: u32,
    pub sign: u32,
    pub dev_hour: u32,
    pub dev_minute: u32,
    pub has: u32,
}

// What the reader answers: refusal 0 with the octets of the node identifier, which begin the name, those of the private part,
// which end it, and the fields; or 20 with zeros.
#[repr(C)]
#[derive(Clone, Copy)]
pub struct Name {
    pub refusal: u8,
    pub node: usize,
    pub private: usize,
    pub fields: Fields,
}

// What the writer answers: refusal 0 with the name's octets, or 20 or 21 with 0.
#[repr(C)]
#[derive(Clone, Copy)]
pub struct Written {
    pub refusal: u8,
    pub octets: usize,
}
