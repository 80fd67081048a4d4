// What the program prints: counts or a refusal on standard output, and on standard error why it could not compare.
use reconcile::Reconciled;
use showfields::print_file_refusal;
use std::io::{self, Stderr, Stdout, Write};
use textlines::Page;

pub fn report_usage(mut stderr: Stderr) -> io::Result<()> {
    stderr.write_all(b"usage: cdrdiff FIRST SECOND\n")
}

// The path's octets as they were given, which need not be text.
pub fn report_unreadable(mut stderr: Stderr, path: &[u8]) -> io::Result<()> {
    stderr.write_all(b"cdrdiff: cannot read ")?;
    stderr.write_all(path)?;
    stderr.write_all(b"\n")
}

// Refusal 23, with the file that the reader refuses and the reader's own refusal. C reads `Reconciled`: refusal and side are numbers there.
fn print_refusal(page: &mut Page<'_>, r: Reconciled) {
    let side = if r.side == 1 { "first" } else { "second" };
    print!(page; "refused: {}, the {side} file: ", r.refusal);
    print_file_refusal(page, r.number);
    println!(page);
}

// All lines fit the page, so one write prints them.
pub fn print(stdout: Stdout, r: Reconciled) {
    let mut printed = [0u8; 256];
    let mut page = Page::new(stdout, &mut printed);
    if r.refusal == 0 {
        println!(page; "in both: {}", r.both);
        println!(page; "only in the first: {}", r.first);
        println!(page; "only in the second: {}", r.second);
    } else {
        print_refusal(&mut page, r);
    }
    page.flush();
}
