// Says in words what a CDR file holds, or what a replay of `cdrgate` came to; either stands on standard input.
#![tactic(auto)]

mod replay;

use showfile::print_file;
use textlines::{Lines, Page, Wrong, zeros};

// A file has 0 as its first octet, and a replay has not.
fn main(rt: HostRuntime) {
    // The buffer has an octet more than the longest file, so that a longer one shows; the longest line has `F`, a space and the digits of 65,536
    // octets.
    let mut buffer = zeros::<65537>();
    let mut line = zeros::<131074>();
    let mut octets = zeros::<65536>();
    let mut printed = zeros::<65536>();
    let mut lines = Lines::new(rt.stdin(), &mut buffer, &mut line);
    let mut page = Page::new(rt.stdout(), &mut printed).read_along();
    match lines.peek() {
        None => page.finish(Err(Wrong), 1),
        Some(0) => {
            print_file(&mut page, b"", lines.whole());
            page.flush();
        }
        Some(_) => {
            let end = lines.answer_all(&mut page, |line, page| {
                replay::say(line, &mut octets, page)
            });
            page.finish(end, lines.number());
        }
    }
}
