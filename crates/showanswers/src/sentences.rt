// What `cdrgate` answers, as sentences. Refusals and outcomes stay the numbers that its lines have: `reasons::lay_refusal` says any number, and a refusal is
// no case of an enum without the octets that 17 has.
use std::fmt::{self, Display, Formatter, Write};
use textlines::Page;

fn print_refusal(page: &mut Page<'_>, number: u32) {
    page.put_laid(|slip| reasons::lay_refusal(slip, 0, number));
}

// So many of something, one or more.
#[derive(Clone, Copy)]
struct Many<'a>(u32, &'a str);

impl<'a> Display for Many<'a> {
    fn fmt<W: Write>(&self, f: &mut Formatter<W>) -> fmt::Result {
        let s = if self.0 == 1 { "" } else { "s" };
        write!(f, "{} {}{s}", self.0, self.1)
    }
}

// Settings: the refusal and the number of routes.
pub fn print_settings(page: &mut Page<'_>, refusal: u32, routes: u32) {
    if refusal == 0 {
        println!(page; "settings accepted: {}", Many(routes, "route"));
        return;
    }
    page.print("settings refused: ");
    print_refusal(page, refusal);
    println!(page);
}

// What happened, by the outcome.
fn happened(outcome: u32) -> &'static str {
    match outcome {
        1 => "OPEN: a file opened",
        2 => "RECEIVE: a record placed",
        3 => "RECEIVE: a record lost",
        4 => "RECEIVE: a record unrouted",
        5 => "CLOSE",
        _ => "TICK",
    }
}

// Of 17 how many octets are needed.
fn print_refused(page: &mut Page<'_>, refusal: u32, octets: u32) {
    page.print("refused: ");
    print_refusal(page, refusal);
    if refusal == 17 {
        print!(page; "; needed: {}", Many(octets, "octet"));
    }
    println!(page);
}

// How many files closed, of how many octets in all. A TICK says that there were none.
fn print_closed(page: &mut Page<'_>, outcome: u32, files: u32, octets: u32) {
    if files != 0 {
        print!(page;
            "; {} closed, {}",
            Many(files, "file"),
            Many(octets, "octet")
        );
    } else if outcome == 6 {
        page.print("; no file was due");
    }
}

// An event's answer: refusal, outcome, route, files, octets, octets compared. The outcomes 4 and 6 have no route, and the work of routing is said of
// a record that had some.
pub fn print_answer(page: &mut Page<'_>, answer: [u32; 6]) {
    let [refusal, outcome, route, files, octets, compared] = answer;
    if refusal != 0 {
        print_refused(page, refusal, octets);
        return;
    }
    page.print(happened(outcome));
    if outcome != 4 && outcome != 6 {
        print!(page; " on route {route}");
    }
    print_closed(page, outcome, files, octets);
    if compared != 0 {
        print!(page; "; {} of filters compared", Many(compared, "octet"));
    }
    println!(page);
}

// What came of a packet: how many records were accepted, and the refusal that stopped it, if one did; with neither it has no records.
pub fn print_packet(page: &mut Page<'_>, refusal: u32, accepted: u32) {
    if accepted != 0 {
        print!(page; "packet: {} accepted", Many(accepted, "record"));
    } else if refusal == 0 {
        page.print("packet without records");
    } else {
        page.print("packet: no record accepted");
    }
    if refusal != 0 {
        page.print("; refused: ");
        print_refusal(page, refusal);
    }
    println!(page);
}

// The state: the last time and the number of unrouted records.
pub fn print_state(page: &mut Page<'_>, time: u32, unrouted: u32) {
    println!(page;
        "state: the last time is minute {time}; {}",
        Many(unrouted, "unrouted record")
    );
}

// A route's state: its number, whether a file is open, its records, and since its last closing its lost and unrouted ones; its next sequence
// number.
pub fn print_route(page: &mut Page<'_>, state: [u32; 6]) {
    let [route, is_open, count, lost, unrouted, next] = state;
    print!(page; "route {route}: ");
    if is_open == 0 {
        page.print("no file is open");
    } else {
        print!(page; "a file is open with {}", Many(count, "record"));
    }
    print!(page; "; since its last closing {}", Many(lost, "lost record"));
    println!(page;
        " and {}; next sequence number {next}",
        Many(unrouted, "unrouted record")
    );
}

// The line of the script at which the run ended.
pub fn print_malformed(page: &mut Page<'_>, line: u32) {
    println!(page; "line {line} of the script is malformed");
}
