// Reads and writes file names: a line of standard input asks for one of them, and a line answers it.
#![tactic(auto)]

mod answers;
mod asked;

use textlines::{Lines, Page, zeros};

fn main(rt: HostRuntime) {
    let mut input = zeros::<65536>();
    let mut line = zeros::<4096>();
    let mut output = zeros::<65536>();
    let mut lines = Lines::new(rt.stdin(), &mut input, &mut line);
    let mut page = Page::new(rt.stdout(), &mut output);
    let end = lines.answer_all(&mut page, answers::answer);
    page.finish(end, lines.number());
}
