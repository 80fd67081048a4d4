// Reads a CDR file of up to 65,536 octets from standard input and writes it again from what the reader handed back, or writes a
// line E with the refusal.
#![tactic(auto)]

ghost use Rattle.writer.specs.Writer.{after};
ghost use Rattle.cdrcopy.specs.Copy.{Rewrites};

use std::io::Stdout;
use textlines::{Page, zeros};
use writer::Written;

// The longest file that is copied.
const LONGEST: usize = 65536;

// Writes over the start of the output what the reader hands back of a file: the same octets, if the output is long enough. The answer is
// the writer's, or the reader's refusal, which leaves the output unchanged.
fn rewrite(file: &[u8], output: &mut [u8]) -> Written
    ensures { Rewrites file.now output.old (after result output.new) }
{
    let c = reader::read(file);
    // C reads what the reader and the writer answer: a refusal there is a number, 0 for none.
    if c.refusal != 0 {
        return Written {
            refusal: c.refusal,
            octets: 0,
        };
    }
    let filter = reader::part_of(file, c.filter);
    let private = reader::part_of(file, c.private);
    let records = reader::part_of(file, c.records);
    writer::write(c.header, filter, private, records, output)
}

// The line of a refusal.
fn print_refusal(stdout: Stdout, number: u8) {
    let mut printed = [0u8; 64];
    let mut page = Page::new(stdout, &mut printed);
    page.put_line(b'E', [u64::from(number)]);
    page.flush();
}

// A file written again, by one write and no page, or the line of its refusal: those beyond the program's limit are refused with 8.
fn copy(stdout: Stdout, file: &[u8], output: &mut [u8]) {
    if LONGEST < file.len() {
        print_refusal(stdout, 8);
        return;
    }
    let w = rewrite(file, output);
    if w.refusal != 0 {
        print_refusal(stdout, w.refusal);
        return;
    }
    streams::write_all(stdout, &output[..w.octets]);
}

fn main(rt: HostRuntime) {
    // An octet more than the longest file, so that a longer one shows.
    let mut buffer = zeros::<65537>();
    let mut output = zeros::<65536>();
    let n = streams::read_full(rt.stdin(), &mut buffer);
    copy(rt.stdout(), &buffer[..n], &mut output);
}
