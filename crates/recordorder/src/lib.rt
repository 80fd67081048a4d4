// The octets of the record at an offset of a file, and the order of two records by them.
#![tactic(auto)]

ghost use Rattle.std.specs.Prelude.{◌≡◌};
ghost use Rattle.std.specs.Ordering.{ordering_index};
ghost use Rattle.recordorder.specs.At.{record_at};
ghost use Rattle.lexicographic.specs.Lexicographic.{order_of};

use std::cmp::Ordering;

// The record at an offset, header and body; all that is left of the file where no whole record begins there.
pub fn record_at(file: &[u8], at: u32) -> &[u8]
    ensures { result.now ≡ record_at file.now at }
{
    let part = record::rest_at(file, at as usize);
    let Some(whole) = record::whole_record(part) else {
        return part;
    };
    let end = whole.header + whole.body;
    &part[0..end]
}

// The order of a record of one file and a record of another. A file and an offset of it stay two parameters: offsets alone are sorted, so a struct
// of both would be made anew at each call. Records that differ in their first four octets lie as these do, and need no step.
pub fn compare(f: &[u8], a: u32, g: &[u8], b: u32) -> Ordering
    ensures { ordering_index result ≡ order_of (record_at f.now a) (record_at g.now b) }
{
    let i = a as usize;
    let j = b as usize;
    if i + 4 <= f.len() && j + 4 <= g.len() {
        let fronts = octets::num::<4>(f, i).cmp(&octets::num::<4>(g, j));
        if fronts.is_ne() {
            return fronts;
        }
    }
    lexicographic::order(record_at(f, a), record_at(g, b))
}
