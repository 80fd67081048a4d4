// Main and standby held together (document 02, ask 9): how many records are in both of two files, only in the first and only in the second. The records of
// each file are sorted by their octets, as offsets, and a walk over both lists counts those that they share.
#![tactic(auto)]

ghost use Rattle.std.specs.Prelude.{◌≡◌, ◌≢◌, ◌≤◌, length, take, IfOk, IfErr};
ghost use Rattle.recordorder.specs.At.{comes_before};
ghost use Rattle.offsets.specs.Offsets.{offsets_of};
ghost use Rattle.multisets.specs.Merge.{Arranged};
ghost use Rattle.reader.specs.Reader.{read_of};
ghost use Rattle.reconcile.specs.Shares.{shares_of};
ghost use Rattle.reconcile.specs.Reconciled.{reconciled_of, reconciled, side_number};

use refusals::Refusal;

// The answer: `refusal` is 0, or 23 with the `side`, 1 or 2, and the reader's `number`; then how many records are in both files, only in the first and only
// in the second, zeros where refused. C reads this struct: numbers and not a Result with an enum.
#[repr(C)]
#[derive(Clone, Copy)]
pub struct Reconciled {
    pub refusal: u8,
    pub side: u8,
    pub number: u8,
    pub both: usize,
    pub first: usize,
    pub second: usize,
}

// The last three of them.
#[derive(Clone, Copy)]
struct Shares {
    both: usize,
    first: usize,
    second: usize,
}

// One of the two files.
#[derive(Clone, Copy)]
enum Side {
    First,
    Second,
}

// Refusal 23: the reader refuses the file of this side with this number.
#[derive(Clone, Copy)]
struct Refused {
    side: Side,
    number: u8,
}

// A file that the reader accepts: where its records start, and how many they are.
#[derive(Clone, Copy)]
struct Accepted<'a> {
    file: &'a [u8],
    start: usize,
    count: usize,
    ghost inside: { start ≤ length file.now },
    ghost short: { length file.now ≤ 1048576 },
    ghost counted: { length (offsets_of file.now start) ≡ count },
}

// Files of at most so many records are counted in little room: clearing the most takes longer than to sort a thousand.
const FEW: usize = 4096;

// And of at most so many in an eighth of the most: bodies are mostly of some octets.
const MANY: usize = 32768;

// A file of 1,048,576 octets has not more records.
const MOST: usize = 262144;

impl Side {
    fn number(self) -> u8
        ensures { result ≡ side_number self }
    {
        match self {
            Side::First => 1,
            Side::Second => 2,
        }
    }
}

impl<'a> Accepted<'a> {
    // The file of this side, or refusal 23 where the reader refuses it: the reader's call is one that C has, so its answer says so by a number.
    fn read(side: Side, file: &'a [u8]) -> Result<Self, Refused>
        ensures ok { IfOk result (λ r. ((read_of file.now).refusal ≡ 0) × (r.file.now ≡ file.now) × (r.start ≡ (read_of file.now).records.start)) }
        ensures err { IfErr result (λ r. (r.side ≡ side) × (r.number ≡ (read_of file.now).refusal) × (r.number ≢ 0)) }
    {
        let contents = reader::read(file);
        if contents.refusal != 0 {
            return Err(Refused {
                side,
                number: contents.refusal,
            });
        }
        Ok(Accepted {
            file,
            start: contents.records.start,
            count: contents.count,
        })
    }

    // Writes the offsets of the records, arranged by the records' octets. `spare` is lent to work in.
    fn arrange(self, out: &mut [u32], spare: &mut [u32]) -> usize
        requires { (self.count ≤ length out.old) × (length out.old ≡ length spare.old) }
        ensures { (result ≤ length out.old) × Arranged (comes_before self.entry.file.now) (offsets_of self.entry.file.now self.entry.start) (take result out.new) }
    {
        let n = offsets::place(self.file, self.start, out);
        sorting::arrange(self.file, &mut out[..n], &mut spare[..n]);
        n
    }
}

// What two files share, in room for at most N offsets of each.
fn share_in<const N: usize>(f: Accepted<'_>, g: Accepted<'_>) -> Shares
    requires small { N ≤ 262144 }
    requires f_fits { f.count ≤ N }
    requires g_fits { g.count ≤ N }
    ensures { result ≡ shares_of f.entry.file.now f.entry.start g.entry.file.now g.entry.start }
{
    let mut x = [0; N];
    let mut y = [0; N];
    let mut spare = [0; N];
    let n = f.arrange(&mut x, &mut spare);
    let m = g.arrange(&mut y, &mut spare);
    let both = sharing::count_both(f.file, &x[..n], g.file, &y[..m]);
    Shares {
        both,
        first: n - both,
        second: m - both,
    }
}

// What two files share.
fn share(f: Accepted<'_>, g: Accepted<'_>) -> Shares
    ensures { result ≡ shares_of f.entry.file.now f.entry.start g.entry.file.now g.entry.start }
{
    if f.count <= FEW && g.count <= FEW {
        return share_in::<FEW>(f, g);
    }
    if f.count <= MANY && g.count <= MANY {
        return share_in::<MANY>(f, g);
    }
    share_in::<MOST>(f, g)
}

// The first file is judged before the second.
fn hold_together(first: &[u8], second: &[u8]) -> Result<Shares, Refused>
    ensures { reconciled result ≡ reconciled_of first.now second.now }
{
    let f = Accepted::read(Side::First, first)?;
    let g = Accepted::read(Side::Second, second)?;
    Ok(share(f, g))
}

// Two files of any content and length, their records counted by multiplicity. It needs 3 MiB of the stack (`MOST`).
pub fn reconcile(first: &[u8], second: &[u8]) -> Reconciled
    ensures { result ≡ reconciled_of first.now second.now }
{
    match hold_together(first, second) {
        Ok(s) => Reconciled {
            refusal: 0,
            side: 0,
            number: 0,
            both: s.both,
            first: s.first,
            second: s.second,
        },
        Err(refused) => Reconciled {
            refusal: Refusal::File.number(),
            side: refused.side.number(),
            number: refused.number,
            both: 0,
            first: 0,
            second: 0,
        },
    }
}
