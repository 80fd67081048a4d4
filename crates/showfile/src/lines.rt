// The lines of a file, or the line of its refusal. Each begins with a margin, which in a replay has two spaces. Page and margin go side by side: a struct of
// both would be taken apart in each line, which is no plainer.
ghost use Rattle.std.specs.Prelude.{◌≤◌, length};

use cdrfile::Header;
use reader::Contents;
use record::Stepped;
use showfields::{
    InWords, print_address, print_file_refusal, print_lost, print_octets_or, print_private,
    print_reason,
};
use textlines::{Page, part};

// The longest file that is shown.
const LONGEST: usize = 65536;

// The line of the refusal that a file gets.
fn print_refusal(page: &mut Page<'_>, margin: &[u8], number: u8) {
    page.put_all(margin);
    print!(page; "refused: ");
    print_file_refusal(page, number);
    println!(page);
}

// The lines of the fields that a header has before its filter.
fn print_header(page: &mut Page<'_>, margin: &[u8], h: Header, count: usize) {
    page.put_all(margin);
    println!(page; "high release: {}", InWords(h.high));
    page.put_all(margin);
    println!(page; "low release: {}", InWords(h.low));
    page.put_all(margin);
    println!(page; "opened: {}", InWords(h.opened));
    page.put_all(margin);
    println!(page; "last append: {}", InWords(h.appended));
    page.put_all(margin);
    println!(page; "records: {count}");
    page.put_all(margin);
    println!(page; "sequence number: {}", h.sequence);
    page.put_all(margin);
    print!(page; "closed because: ");
    print_reason(page, h.reason);
    println!(page);
    page.put_all(margin);
    print!(page; "node address: ");
    print_address(page, &h.address);
    println!(page);
    page.put_all(margin);
    print!(page; "lost: ");
    print_lost(page, h.lost);
    println!(page);
}

// The lines of the fields, of any file that is not too long.
fn print_fields(page: &mut Page<'_>, margin: &[u8], file: &[u8], c: Contents)
    requires { length file.now ≤ 65536 }
{
    let filter = reader::part_of(file, c.filter);
    let header = c.records.start;
    page.put_all(margin);
    println!(page; "file: {} octets, header {header}", file.len());
    print_header(page, margin, c.header, c.count);
    page.put_all(margin);
    print!(page; "routeing filter: ");
    print_octets_or(page, filter, b"none");
    println!(page);
    page.put_all(margin);
    print!(page; "private extension: ");
    // `part` says that it is no longer than the file.
    print_private(
        page,
        c.header.statement,
        part(file, c.private.start, c.private.octets),
    );
    println!(page);
}

// The line of the record that begins at `at`.
fn print_record(
    page: &mut Page<'_>,
    margin: &[u8],
    index: usize,
    at: usize,
    s: Stepped,
    body: &[u8],
) {
    page.put_all(margin);
    print!(page; "record {index}: at {at}, {} octets, ", s.body);
    print!(page; "{}, body ", InWords(s.fields));
    print_octets_or(page, body, b"-");
    println!(page);
}

// The lines of so many records, of which the first begins at `start`.
fn print_records(page: &mut Page<'_>, margin: &[u8], file: &[u8], start: usize, count: usize) {
    let mut at = start;
    for index in 0..count {
        let s = record::step_at(file, at);
        // C reads what the step answers: a refusal there is a number, 0 for none, and so is the reader's.
        if s.refusal != 0 {
            return;
        }
        print_record(page, margin, index, at, s, record::body_at(file, at));
        at += s.header + s.body;
    }
}

// The lines of any octets: those beyond the program's limit are refused with 8.
pub fn print_file(page: &mut Page<'_>, margin: &[u8], file: &[u8]) {
    if LONGEST < file.len() {
        print_refusal(page, margin, 8);
        return;
    }
    let c = reader::read(file);
    if c.refusal != 0 {
        print_refusal(page, margin, c.refusal);
        return;
    }
    print_fields(page, margin, file, c);
    print_records(page, margin, file, c.records.start, c.count);
}
