// The lines that answer: what a name says, or the name that was written, or a refusal. C reads what the reader and the writer of names answer,
// and so a refusal is a number there, 0 for none.
use crate::asked::{Asked, Order, asked_by};
use filename::{Fields, Name};
use textlines::{Page, Wrong, part};

// A word behind a space.
fn put_word(page: &mut Page<'_>, octets: &[u8]) {
    page.put(b' ');
    page.put_all(octets);
}

fn print_fields(page: &mut Page<'_>, f: Fields) {
    let numbers = [
        f.count,
        f.year,
        f.month,
        f.day,
        f.hour,
        f.minute,
        f.sign,
        f.dev_hour,
        f.dev_minute,
    ];
    page.put_fields(numbers.map(u64::from));
}

// What a right name says. For a private part that is not there stands `-`.
fn print_name(page: &mut Page<'_>, n: Name, name: &[u8]) {
    put_word(page, part(name, 0, n.node));
    print_fields(page, n.fields);
    if n.fields.has == 0 {
        put_word(page, b"-");
    } else {
        put_word(
            page,
            part(name, name.len().saturating_sub(n.private), n.private),
        );
    }
}

// The answer to `N`.
fn print_read(page: &mut Page<'_>, name: &[u8]) {
    let n = filename::read(name);
    page.put(b'N');
    page.put_fields([u64::from(n.refusal)]);
    if n.refusal == 0 {
        print_name(page, n, name);
    }
    page.put(b'\n');
}

// The answer to `W`. More than the longest name has make no difference to the output.
fn print_written(page: &mut Page<'_>, order: Order<'_>) {
    let mut output = [0u8; 100];
    let room = order.room.min(output.len());
    let w = filename::write(order.fields, order.node, order.private, &mut output[..room]);
    page.put(b'W');
    page.put_fields([u64::from(w.refusal)]);
    if w.refusal == 0 {
        put_word(page, part(&output, 0, w.octets));
    }
    page.put(b'\n');
}

// The answer to a line.
pub fn answer(line: &[u8], page: &mut Page<'_>) -> Result<(), Wrong> {
    match asked_by(line).ok_or(Wrong)? {
        Asked::Read(name) => print_read(page, name),
        Asked::Write(order) => print_written(page, order),
    }
    Ok(())
}
