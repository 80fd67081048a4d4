// Replays a script of events that stands on standard input on the manager, and prints every answer and every closed file.
#![tactic(auto)]

mod happening;

use gatesteps::Desk;
use textlines::{Lines, Page, zeros};

fn main(rt: HostRuntime) {
    let mut input = zeros::<65536>();
    let mut line = zeros::<141000>();
    let mut octets = zeros::<524288>();
    let mut words = [0u32; 360];
    let mut store = zeros::<524288>();
    let mut output = zeros::<524288>();
    let mut printed = zeros::<65536>();
    let mut lines = Lines::new(rt.stdin(), &mut input, &mut line);
    let mut desk = Desk::new(&mut words, &mut store, &mut output);
    let mut page = Page::new(rt.stdout(), &mut printed);
    let end = lines.answer_all(&mut page, |line, page| {
        happening::answer(line, &mut octets, &mut desk, page)
    });
    page.finish(end, lines.number());
}
