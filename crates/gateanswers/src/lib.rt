// The lines that the gate prints: an answer, what came of a packet, the files that were closed, the state. C reads what the calls answer: refusals and
// outcomes are numbers there.
#![tactic(auto)]

ghost use Rattle.std.specs.Prelude.{◌≤◌, length};

use events::Answer;
use state::Route;
use textlines::Page;
use words::Words;

// The line of settings: the refusal and the number of routes.
pub fn print_settings(page: &mut Page<'_>, refusal: u8, routes: usize) {
    page.put_line(b'S', [u64::from(refusal), routes as u64]);
}

// The line of an event's answer.
pub fn print_answer(page: &mut Page<'_>, answer: Answer) {
    let numbers = [
        u64::from(answer.refusal),
        u64::from(answer.outcome),
        u64::from(answer.route),
        u64::from(answer.files),
        answer.octets as u64,
        answer.compared as u64,
    ];
    page.put_line(b'A', numbers);
}

// The line of a packet: the refusal that stopped it or 0, and how many records were accepted.
pub fn print_packet(page: &mut Page<'_>, refusal: u8, accepted: u8) {
    page.put_line(b'B', [u64::from(refusal), u64::from(accepted)]);
}

// The file that these octets begin with, whose length is its first four octets, and the octets behind it.
fn first_file(octets: &[u8]) -> (&[u8], &[u8])
    ensures { length result.0.now ≤ length octets.now }
{
    match octets.first_chunk::<4>() {
        Some(length) => {
            let count = u32::from_be_bytes(*length) as usize;
            octets.split_at_checked(count).unwrap_or((&[], octets))
        }
        None => (&[], octets),
    }
}

// The lines of so many files that stand one behind another.
pub fn print_files(page: &mut Page<'_>, output: &[u8], count: u8) {
    let mut rest = output;
    for _ in 0..count {
        let (file, behind) = first_file(rest);
        page.put_all(b"F ");
        page.put_digits(file);
        page.put(b'\n');
        rest = behind;
    }
}

// The line of a route's state, with the number of records of its open file, 0 with none.
fn print_route(page: &mut Page<'_>, index: usize, route: Route) {
    let count = if route.open { route.file.count } else { 0 };
    let numbers = [
        index as u64,
        u64::from(route.open),
        u64::from(count),
        u64::from(route.losses),
        u64::from(route.unrouted),
        u64::from(route.next),
    ];
    page.put_line(b'q', numbers);
}

// The lines of the state: last time and number of unrouted records, and then the routes.
pub fn print_state(page: &mut Page<'_>, words: &Words) {
    page.put_line(b'Q', [u64::from(words[6]), u64::from(words[7])]);
    for index in 0..words::count_of(words).min(8) {
        print_route(page, index, words::route_at(words, index));
    }
}
