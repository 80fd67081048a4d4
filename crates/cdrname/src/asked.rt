// What a line asks for.
use filename::Fields;
use textlines::Words;

// A name to be written: its fields, its node identifier and its private part, and the output's octets.
#[derive(Clone, Copy)]
pub struct Order<'a> {
    pub fields: Fields,
    pub node: &'a [u8],
    pub private: &'a [u8],
    pub room: usize,
}

// A name to be read, which is all of the line behind its first two octets, or one to be written.
#[derive(Clone, Copy)]
pub enum Asked<'a> {
    Read(&'a [u8]),
    Write(Order<'a>),
}

// The next word, of which `-` stands for no octets.
fn octets_of<'a>(words: &mut Words<'a>) -> Option<&'a [u8]> {
    match words.word()? {
        b"-" => Some(&[]),
        word => Some(word),
    }
}

// The words of a `W`, one behind another.
fn order_of<'a>(mut words: Words<'a>) -> Option<Order<'a>> {
    let node = octets_of(&mut words)?;
    let fields = Fields {
        count: words.number()?,
        year: words.number()?,
        month: words.number()?,
        day: words.number()?,
        hour: words.number()?,
        minute: words.number()?,
        sign: words.number()?,
        dev_hour: words.number()?,
        dev_minute: words.number()?,
        has: words.number()?,
    };
    let private = octets_of(&mut words)?;
    let room = words.number()? as usize;
    words.end()?;
    Some(Order {
        fields,
        node,
        private,
        room,
    })
}

// What a line asks for, or none where it is wrong.
pub fn asked_by(line: &[u8]) -> Option<Asked<'_>> {
    match line {
        [b'N', b' ', name @ ..] => Some(Asked::Read(name)),
        [b'W', words @ ..] => Some(Asked::Write(order_of(Words::new(words))?)),
        _ => None,
    }
}
