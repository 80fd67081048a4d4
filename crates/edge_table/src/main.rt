// The edge table's rows that are executed: timestamps, lost indicators, loss counts, damaged files, and the table's file, without
// the loss counts and with them, read, stepped over and written. Each case is a line, and the file `stdout` has what is expected.
// The starred rows are shown by evaluation in specs/EdgeTable.
#![tactic(auto)]

ghost use Rattle.std.specs.Prelude.{◌<◌};

use textlines::Page;

// The rest of a line: octets in hexadecimal.
fn hexadecimal(page: &mut Page<'_>, octets: &[u8]) {
    page.print(" ");
    for octet in octets {
        print!(page; "{octet:02x}");
    }
    println!(page);
}

// The refusal and the octets of a timestamp. The offset is given with 1,439 added. C reads what this and the other calls answer: the refusal is a number.
fn stamp(page: &mut Page<'_>, minutes: u32, bias: u32) {
    let s = timestamp::stamp(minutes, bias);
    let sign = if bias < 1439 { '-' } else { '+' };
    let offset = bias.abs_diff(1439);
    print!(page; "minute {minutes} offset {sign}{offset}: {}", s.refusal);
    hexadecimal(page, &s.octets);
}

// The table's four, the days around a leap day, and 000's two examples of times (6.2).
fn stamps(page: &mut Page<'_>) {
    stamp(page, 0, 1439);
    stamp(page, 0, 1439 - 60);
    stamp(page, 84960, 1439);
    stamp(page, 8547030, 1439 + 120);
    stamp(page, 84959, 1439);
    stamp(page, 86399, 1439);
    stamp(page, 86400, 1439);
    stamp(page, 611999, 1439 + 1);
    stamp(page, 50577030, 1439 + 90);
    stamp(page, 2761755, 1439 + 120);
    stamp(page, 3146670, 1439 - 690);
}

// The ends of time and offset, and what lies beyond them: 4 for the minute, 2 for the offset, 4 for both.
fn far_stamps(page: &mut Page<'_>) {
    stamp(page, 0, 0);
    stamp(page, 0, 2878);
    stamp(page, 52595999, 0);
    stamp(page, 52595999, 1439);
    stamp(page, 52595999, 2878);
    stamp(page, 52596000, 1439);
    stamp(page, 4294967295, 1439);
    stamp(page, 0, 2879);
    stamp(page, 0, 4294967295);
    stamp(page, 52596000, 2879);
}

// The lost indicator of so many known losses, without an unrouted record and with one.
fn indicator(page: &mut Page<'_>, losses: u32) {
    let known = state::lost_indicator(losses, false);
    let noted = state::lost_indicator(losses, true);
    println!(page; "losses {losses}: {known}, noted {noted}");
}

// The table's rows, and the numbers on either side of where the indicator stops counting.
fn indicators(page: &mut Page<'_>) {
    indicator(page, 0);
    indicator(page, 1);
    indicator(page, 3);
    indicator(page, 126);
    indicator(page, 127);
    indicator(page, 128);
    indicator(page, 200);
    indicator(page, 40000);
    indicator(page, 4294967295);
}

// What private octets say of losses: whether they are the counts, and the two.
fn counts_in(page: &mut Page<'_>, private: &[u8]) {
    let c = counts::read(private);
    print!(page; "private octets {}: {}", private.len(), c.there as u8);
    println!(page; ", losses {}, unrouted {}", c.losses, c.unrouted);
}

// Counts with 40,000 losses; none; and what is no such extension: one octet too few, one too many, another kind, nothing.
fn counts(page: &mut Page<'_>) {
    counts_in(page, b"\x01\x00\x00\x9C\x40\x00\x00\x00\x03");
    counts_in(page, b"\x01\x00\x00\x00\x00\x00\x00\x00\x00");
    counts_in(page, b"\x01\x00\x00\x9C\x40\x00\x00\x00");
    counts_in(page, b"\x01\x00\x00\x9C\x40\x00\x00\x00\x03\x00");
    counts_in(page, b"\x00\x00\x00\x9C\x40\x00\x00\x00\x03");
    counts_in(page, b"");
}

// The table's file, as document 01 has it.
fn table_file() -> [u8; 56] {
    [
        0x00, 0x00, 0x00, 0x38, 0x00, 0x00, 0x00, 0x32, 0x83, 0x83, 0x10, 0x80, 0x08, 0x00, 0x10,
        0x80, 0x08, 0x00, 0x00, 0x00, 0x00, 0x01, 0x00, 0x00, 0x00, 0x07, 0x04, 0xFF, 0xFF, 0xFF,
        0xFF, 0x00, 0x00, 0x00, 0x00, 0x00, 0x00, 0x00, 0x00, 0x00, 0x00, 0xFF, 0xFF, 0xC0, 0x00,
        0x02, 0x01, 0x00, 0x00, 0x00, 0x00, 0x02, 0x83, 0x2F, 0xA1, 0xB2,
    ]
}

// The refusal of a file, beside the one that is expected.
fn verdict(page: &mut Page<'_>, file: &[u8], expected: u8) {
    let c = reader::read(file);
    println!(page; ": {}, expected {expected}", c.refusal);
}

// The table's file with the octet at an index, counted from 0, changed.
fn changed(page: &mut Page<'_>, at: usize, octet: u8, expected: u8)
    requires { at < 56 }
{
    let mut file = table_file();
    file[at] = octet;
    print!(page; "octet {at} is {octet}");
    verdict(page, &file, expected);
}

// The table's file, cut to so many octets.
fn cut(page: &mut Page<'_>, octets: usize, expected: u8)
    requires { octets < 56 }
{
    let file = table_file();
    print!(page; "cut to {octets}");
    verdict(page, &file[..octets], expected);
}

// Damage by cutting, and to lengths and timestamps: 8, 9 and 10.
fn damaged_headers(page: &mut Page<'_>) {
    cut(page, 0, 8);
    cut(page, 49, 8);
    cut(page, 55, 8);
    changed(page, 3, 57, 8);
    changed(page, 7, 49, 9);
    changed(page, 7, 51, 9);
    changed(page, 7, 57, 9);
    changed(page, 49, 1, 9);
    changed(page, 10, 208, 10);
    changed(page, 14, 0, 10);
    changed(page, 13, 60, 10);
}

// Damage to records, count, high and low: 11, 12 and 13. What is kept as read is no damage.
fn damaged_records(page: &mut Page<'_>) {
    changed(page, 50, 255, 11);
    changed(page, 51, 1, 11);
    changed(page, 51, 3, 11);
    changed(page, 52, 227, 11);
    changed(page, 21, 0, 12);
    changed(page, 21, 2, 12);
    changed(page, 8, 132, 13);
    changed(page, 9, 130, 13);
    changed(page, 52, 132, 13);
    changed(page, 26, 200, 0);
    changed(page, 47, 255, 0);
    changed(page, 27, 0, 0);
    changed(page, 53, 255, 0);
}

// A step over the file from any offset: the refusal, the octets of header and body.
fn step(page: &mut Page<'_>, file: &[u8], at: usize) {
    let s = record::step_at(file, at);
    println!(page; "step at {at}: {} {} {}", s.refusal, s.header, s.body);
}

// The file written again, with this statement and these private octets, to an output of so many octets: the refusal, the octets written
// or needed, and the output.
fn written(page: &mut Page<'_>, file: &[u8], statement: u8, private: &[u8], output: &mut [u8]) {
    let c = reader::read(file);
    let mut h = c.header;
    h.statement = statement;
    let filter = reader::part_of(file, c.filter);
    let records = reader::part_of(file, c.records);
    let w = writer::write(h, filter, private, records, output);
    print!(page; "written to {}: {} {}", output.len(), w.refusal, w.octets);
    hexadecimal(page, output);
}

fn table_file_cases(page: &mut Page<'_>) {
    let file = table_file();
    let c = reader::read(&file);
    let private = reader::part_of(&file, c.private);
    step(page, &file, 50);
    step(page, &file, 53);
    step(page, &file, 56);
    step(page, &file, 18446744073709551615);
    let mut long = [238u8; 58];
    written(page, &file, 0, private, &mut long);
    let mut short = [238u8; 55];
    written(page, &file, 0, private, &mut short);
}

// The file with the loss counts of document 02, ask 3, as the manager closes it: written, read, stepped over.
fn counted_file_cases(page: &mut Page<'_>) {
    let file = table_file();
    let none = counts::octets_of(0, 0);
    let mut counted = [238u8; 67];
    written(page, &file, 2, &none, &mut counted);
    let c = reader::read(&counted);
    counts_in(page, reader::part_of(&counted, c.private));
    step(page, &counted, 61);
    let mut short = [238u8; 66];
    written(page, &file, 2, &none, &mut short);
}

// What a file's header states of its private extension, and the octets of that.
fn stated(page: &mut Page<'_>, file: &[u8]) {
    let c = reader::read(file);
    print!(page; "read of {}: {}", file.len(), c.refusal);
    println!(page;
        ", statement {}, private octets {}",
        c.header.statement, c.private.octets
    );
}

fn contradicted(page: &mut Page<'_>, file: &[u8], statement: u8, private: &[u8]) {
    let mut output = [238u8; 60];
    written(page, file, statement, private, &mut output);
}

// The file without a private extension, with an empty one and with one of an octet (document 02, ask 5), and statements that their octets
// contradict.
fn extension_cases(page: &mut Page<'_>) {
    let file = table_file();
    stated(page, &file);
    let mut empty = [238u8; 58];
    written(page, &file, 1, b"", &mut empty);
    stated(page, &empty);
    let mut some = [238u8; 59];
    written(page, &file, 2, b"\xAA", &mut some);
    stated(page, &some);
    contradicted(page, &file, 0, b"\xAA");
    contradicted(page, &file, 1, b"\xAA");
    contradicted(page, &file, 2, b"");
    contradicted(page, &file, 3, b"");
}

fn main(rt: HostRuntime) {
    let mut printed = [0u8; 4096];
    let mut page = Page::new(rt.stdout(), &mut printed);
    stamps(&mut page);
    far_stamps(&mut page);
    indicators(&mut page);
    counts(&mut page);
    damaged_headers(&mut page);
    damaged_records(&mut page);
    table_file_cases(&mut page);
    counted_file_cases(&mut page);
    extension_cases(&mut page);
    page.flush();
}
