// The lines of a replay, each said in words, up to a wrong one.
use showanswers::{
    numbers_of, octets_of, print_answer, print_malformed, print_packet, print_route,
    print_settings, print_state,
};
use showfile::print_file;
use textlines::{Page, Wrong};

// Wrong, unless this is so.
fn only_if(is_right: bool) -> Result<(), Wrong> {
    if is_right { Ok(()) } else { Err(Wrong) }
}

// The numbers of a line are held to what `cdrgate` prints; they stay numbers, as in the sentences. Settings that are accepted have routes, and those that
// are refused none.
fn is_settings(refusal: u32, routes: u32) -> bool {
    match refusal {
        0 => 0 < routes && routes < 9,
        1 | 2 | 3 | 22 => routes == 0,
        _ => false,
    }
}

fn is_event_refusal(number: u32) -> bool {
    matches!(number, 4..=7 | 14..=19)
}

// An answer has an outcome exactly where it has no refusal, and the route that goes with it: 255 where it has none.
fn is_answer(refusal: u32, outcome: u32, route: u32) -> bool {
    match outcome {
        0 => is_event_refusal(refusal) && route == 0,
        1 | 2 | 3 | 5 => refusal == 0 && route < 8,
        4 | 6 => refusal == 0 && route == 255,
        _ => false,
    }
}

// A packet may be refused whole, or stop at a record.
fn is_packet(refusal: u32, accepted: u32) -> bool {
    match refusal {
        0 => accepted < 65,
        11 => accepted == 0,
        _ => is_event_refusal(refusal) && accepted < 64,
    }
}

fn say_settings(rest: &[u8], page: &mut Page<'_>) -> Result<(), Wrong> {
    let [refusal, routes] = numbers_of::<2>(rest)?;
    only_if(is_settings(refusal, routes))?;
    print_settings(page, refusal, routes);
    Ok(())
}

fn say_answer(rest: &[u8], page: &mut Page<'_>) -> Result<(), Wrong> {
    let answer = numbers_of::<6>(rest)?;
    let [refusal, outcome, route, _, _, _] = answer;
    only_if(is_answer(refusal, outcome, route))?;
    print_answer(page, answer);
    Ok(())
}

fn say_packet(rest: &[u8], page: &mut Page<'_>) -> Result<(), Wrong> {
    let [refusal, accepted] = numbers_of::<2>(rest)?;
    only_if(is_packet(refusal, accepted))?;
    print_packet(page, refusal, accepted);
    Ok(())
}

fn say_state(rest: &[u8], page: &mut Page<'_>) -> Result<(), Wrong> {
    let [time, unrouted] = numbers_of::<2>(rest)?;
    print_state(page, time, unrouted);
    Ok(())
}

fn say_route(rest: &[u8], page: &mut Page<'_>) -> Result<(), Wrong> {
    let state = numbers_of::<6>(rest)?;
    let [route, is_open, _, _, _, _] = state;
    only_if(route <= 7 && is_open <= 1)?;
    print_route(page, state);
    Ok(())
}

fn say_malformed(rest: &[u8], page: &mut Page<'_>) -> Result<(), Wrong> {
    let [line] = numbers_of::<1>(rest)?;
    only_if(line != 0)?;
    print_malformed(page, line);
    Ok(())
}

fn say_file(rest: &[u8], octets: &mut [u8], page: &mut Page<'_>) -> Result<(), Wrong> {
    print_file(page, b"  ", octets_of(rest, octets)?);
    Ok(())
}

// Says what a line says, by its letter.
pub fn say(line: &[u8], octets: &mut [u8], page: &mut Page<'_>) -> Result<(), Wrong> {
    match line {
        [b'S', rest @ ..] => say_settings(rest, page),
        [b'A', rest @ ..] => say_answer(rest, page),
        [b'B', rest @ ..] => say_packet(rest, page),
        [b'F', rest @ ..] => say_file(rest, octets, page),
        [b'Q', rest @ ..] => say_state(rest, page),
        [b'q', rest @ ..] => say_route(rest, page),
        [b'E', rest @ ..] => say_malformed(rest, page),
        _ => Err(Wrong),
    }
}
