// What a line of the script asks for.
use crate::octet_words::put_octets;
use events::Arrival;
use textlines::Words;

// A RECEIVE.
#[derive(Clone, Copy)]
pub struct Receipt<'a> {
    pub time: u32,
    pub arrival: Arrival,
    pub key: &'a [u8],
    pub body: &'a [u8],
}

// An event with its time, and then its route and its reason if it has them; or a packet.
#[derive(Clone, Copy)]
pub enum Event<'a> {
    Open(u32, u32),
    Close(u32, u32, u32),
    Tick(u32),
    Receive(Receipt<'a>),
    Packet(&'a [u8]),
}

// A line's meaning: nothing, settings, a store or outputs of so many octets, an event, or the state to be printed.
#[derive(Clone, Copy)]
pub enum Command<'a> {
    Comment,
    Settings(&'a [u8]),
    Store(usize),
    Width(usize),
    Happening(Event<'a>),
    State,
}

// The octets of a line that has nothing else.
fn only_octets<'a>(mut words: Words<'_>, space: &'a mut [u8]) -> Option<&'a [u8]> {
    let count = put_octets(space, words.word()?)?;
    words.end()?;
    space.get(..count)
}

// The number of a line that has nothing else.
fn only_number(mut words: Words<'_>) -> Option<u32> {
    let number = words.number()?;
    words.end()?;
    Some(number)
}

fn open_of<'a>(mut words: Words<'_>) -> Option<Event<'a>> {
    let time = words.number()?;
    let route = words.number()?;
    words.end()?;
    Some(Event::Open(time, route))
}

fn close_of<'a>(mut words: Words<'_>) -> Option<Event<'a>> {
    let time = words.number()?;
    let route = words.number()?;
    let reason = words.number()?;
    words.end()?;
    Some(Event::Close(time, route, reason))
}

// A RECEIVE's body stands behind its key.
fn receive_of<'a>(mut words: Words<'_>, space: &'a mut [u8]) -> Option<Event<'a>> {
    let time = words.number()?;
    let mark = words.number()?;
    let count = put_octets(space, words.word()?)?;
    let (key, rest) = space.split_at_mut_checked(count)?;
    let arrival = Arrival {
        mark,
        release: words.number()?,
        version: words.number()?,
        extension: u8::try_from(words.number()?).ok()?,
        format: words.number()?,
        ts: words.number()?,
    };
    let count = put_octets(rest, words.word()?)?;
    let body = rest.get(..count)?;
    words.end()?;
    Some(Event::Receive(Receipt {
        time,
        arrival,
        key,
        body,
    }))
}

fn meaning<'a>(letter: u8, words: Words<'_>, space: &'a mut [u8]) -> Option<Command<'a>> {
    match letter {
        b'#' => Some(Command::Comment),
        b'S' => Some(Command::Settings(only_octets(words, space)?)),
        b'M' => Some(Command::Store(only_number(words)? as usize)),
        b'W' => Some(Command::Width(only_number(words)? as usize)),
        b'O' => Some(Command::Happening(open_of(words)?)),
        b'C' => Some(Command::Happening(close_of(words)?)),
        b'T' => Some(Command::Happening(Event::Tick(only_number(words)?))),
        b'R' => Some(Command::Happening(receive_of(words, space)?)),
        b'B' => Some(Command::Happening(Event::Packet(only_octets(words, space)?))),
        b'Q' => words.end().map(|()| Command::State),
        _ => None,
    }
}

// The meaning of a line, whose octets, if it has any, go to the start of the space; or none where it is wrong.
pub fn command_of<'a>(line: &[u8], space: &'a mut [u8]) -> Option<Command<'a>> {
    match line {
        [] => Some(Command::Comment),
        [letter, words @ ..] => meaning(*letter, Words::new(words), space),
    }
}
