// The records in both of two files.
#![tactic(auto)]

ghost use Rattle.std.specs.Prelude.{◌≡◌, map};
ghost use Rattle.recordorder.specs.At.{record_at, comes_before};
ghost use Rattle.multisets.specs.Passing.{Sorted};
ghost use Rattle.multisets.specs.InBoth.{stepwise};
ghost use Rattle.sharing.specs.Counting.{same_octets};

use std::cmp::Ordering;

// How many records two lists of offsets share, each list in the order of its records: of two that differ the one that comes before is in no other
// place of the other list; two that are the same are counted and both left behind. A struct of a file and its list, made for this call, is no plainer.
pub fn count_both(f: &[u8], x: &[u32], g: &[u8], y: &[u32]) -> usize
    requires { Sorted (comes_before f.now) x.now × Sorted (comes_before g.now) y.now }
    ensures { result ≡ stepwise same_octets (map (record_at f.now) x.now) (map (record_at g.now) y.now) }
{
    let mut n: usize = 0;
    let mut x = x;
    let mut y = y;
    while let ([a, later_x @ ..], [b, later_y @ ..]) = (x, y) {
        match recordorder::compare(f, *a, g, *b) {
            Ordering::Less => x = later_x,
            Ordering::Greater => y = later_y,
            Ordering::Equal => {
                n += 1;
                x = later_x;
                y = later_y;
            }
        }
    }
    n
}
