// The records of a file in the order of their octets, as offsets.
#![tactic(auto)]

ghost use Rattle.std.specs.Prelude.{◌≡◌, true, ◌+◌, ◌≤◌, ◌<◌, length, take, drop};
ghost use Rattle.recordorder.specs.At.{comes_before};
ghost use Rattle.multisets.specs.Passing.{Sorted};
ghost use Rattle.multisets.specs.Merge.{merge_of, Arranged};
ghost use Rattle.sorting.specs.Choice.{Choice};

// Whether one record of a file comes before another.
fn is_before(file: &[u8], a: u32, b: u32) -> bool
    ensures { result ≡ comes_before file.now a b }
{
    recordorder::compare(file, a, file, b).is_lt()
}

// Whether the next offset of a merge is the second's.
fn takes_second(file: &[u8], x: &[u32], i: usize, y: &[u32], j: usize) -> bool
    requires { (i ≤ length x.now) × (j ≤ length y.now) × (i + j < length x.now + length y.now) }
    ensures { Choice (comes_before file.now) x.now y.now i j result }
{
    if y.len() <= j {
        return false;
    }
    if x.len() <= i {
        return true;
    }
    is_before(file, y[j], x[i])
}

// Merges two lists of offsets that are in order.
fn merge(file: &[u8], x: &[u32], y: &[u32], out: &mut [u32])
    requires { length out.old ≡ length x.now + length y.now }
    ensures { out.new ≡ merge_of (comes_before file.now) x.now y.now }
{
    let mut i = 0;
    let mut j = 0;
    for place in out.iter_mut() {
        if takes_second(file, x, i, y, j) {
            *place = y[j];
            j += 1;
        } else {
            *place = x[i];
            i += 1;
        }
    }
}

// Copies one list over another of the same length: by a loop, since std's copy asks for one more function from outside of a library for C.
fn copy(from: &[u32], to: &mut [u32])
    requires { length from.now ≡ length to.old }
    ensures { to.new ≡ from.now }
{
    for i in 0..from.len() {
        to[i] = from[i];
    }
}

// Merges the first m offsets and the rest, each in order. `spare` is lent to work in.
fn join(file: &[u8], offsets: &mut [u32], spare: &mut [u32], m: usize)
    requires { (length offsets.old ≡ length spare.old) × (m ≤ length offsets.old) }
    ensures { offsets.new ≡ merge_of (comes_before file.now) (take m offsets.old) (drop m offsets.old) }
{
    let n = offsets.len();
    merge(file, &offsets[0..m], &offsets[m..n], spare);
    copy(spare, offsets);
}

// Sorts each half, and merges the two where the second begins before the end of the first: what lies in order is passed over once.
fn merge_sort(file: &[u8], offsets: &mut [u32], spare: &mut [u32])
    requires { length offsets.old ≡ length spare.old }
    ensures { Arranged (comes_before file.now) offsets.old offsets.new }
{
    let n = offsets.len();
    if n < 2 {
        return;
    }
    let m = n / 2;
    merge_sort(file, &mut offsets[..m], &mut spare[..m]);
    merge_sort(file, &mut offsets[m..], &mut spare[m..]);
    if is_before(file, offsets[m], offsets[m - 1]) {
        join(file, offsets, spare, m);
    }
}

// Whether none comes before the one in front of it.
fn is_in_order(file: &[u8], offsets: &[u32]) -> bool
    ensures { result ≡ true → Sorted (comes_before file.now) offsets.now }
{
    for i in 1..offsets.len() {
        if is_before(file, offsets[i], offsets[i - 1]) {
            return false;
        }
    }
    true
}

// Whether each comes before the one in front of it. Such a list std turns round in one pass; it decides the time alone.
fn is_falling(file: &[u8], offsets: &[u32]) -> bool {
    for pair in offsets.windows(2) {
        if !is_before(file, pair[1], pair[0]) {
            return false;
        }
    }
    true
}

// Arranges offsets by the octets of their records. `spare` is lent to work in, and is as long. A gateway files many records in order, equal, or nearly
// in order, so that is looked for first, and a merge passes over what is; it takes time by what is out of order.
pub fn arrange(file: &[u8], offsets: &mut [u32], spare: &mut [u32])
    requires { length offsets.old ≡ length spare.old }
    ensures { Arranged (comes_before file.now) offsets.old offsets.new }
{
    if is_in_order(file, offsets) {
        return;
    }
    if is_falling(file, offsets) {
        offsets.sort_unstable_by(|a, b| recordorder::compare(file, *a, file, *b));
    } else {
        merge_sort(file, offsets, spare);
    }
}
