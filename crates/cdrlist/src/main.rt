// Lists a CDR file of up to 65,536 octets that stands on standard input: a line F for the file and a line R for each record, or
// a line E with the refusal.
#![tactic(auto)]

use reader::Contents;
use textlines::{Page, zeros};

// The longest file that is listed.
const LONGEST: usize = 65536;

// The line of a file: length, header length, number of records, sequence number, closure reason, lost indicator.
fn print_file(page: &mut Page<'_>, length: usize, c: Contents) {
    let h = c.header;
    let numbers = [
        length as u64,
        c.records.start as u64,
        c.count as u64,
        u64::from(h.sequence),
        u64::from(h.reason),
        u64::from(h.lost),
    ];
    page.put_line(b'F', numbers);
}

// The lines of so many records, of which the first stands at `start`: its index, the offset of its header, the length of its body. A write that fails ends
// them. The lines in words (showfile) go the same way: a walk for both would take a closure of five arguments, which is no plainer.
fn print_records(page: &mut Page<'_>, file: &[u8], start: usize, count: usize) {
    let mut at = start;
    for index in 0..count {
        let s = record::step_at(file, at);
        // C reads what the step answers: a refusal there is a number, 0 for none, and so is the reader's.
        if s.refusal != 0 || !page.works() {
            return;
        }
        page.put_line(b'R', [index as u64, at as u64, s.body as u64]);
        at += s.header + s.body;
    }
}

// The lines of any octets: those beyond the program's limit are refused with 8.
fn list(page: &mut Page<'_>, file: &[u8]) {
    if LONGEST < file.len() {
        page.put_line(b'E', [8]);
        return;
    }
    let c = reader::read(file);
    if c.refusal != 0 {
        page.put_line(b'E', [u64::from(c.refusal)]);
        return;
    }
    print_file(page, file.len(), c);
    print_records(page, file, c.records.start, c.count);
}

fn main(rt: HostRuntime) {
    // An octet more than the longest file, so that a longer one shows.
    let mut buffer = zeros::<65537>();
    let mut printed = zeros::<4096>();
    let mut page = Page::new(rt.stdout(), &mut printed);
    let n = streams::read_full(rt.stdin(), &mut buffer);
    list(&mut page, &buffer[..n]);
    // A write that failed was the last.
    if page.works() {
        page.flush();
    }
}
