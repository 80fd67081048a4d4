// Compares two CDR files that the arguments name, and says how many records are in both and how many in only one of them
// (../shared/CDRDIFF.md).
#![tactic(auto)]

mod files;
mod words;

use textlines::zeros;

// One octet more than the longest file has, so that the reader can tell that a longer file is too long.
const FILE_AND_MORE: usize = 1048577;

// Linux hands a program no argument of more than 131,071 octets, so every path can be printed as it was given.
const LONGEST_ARGUMENT: usize = 131072;

// Both files are read before either is judged, so a file that cannot be read is reported before any refusal. A file that is too long fills
// its buffer, and so the reader refuses it with 8.
fn compare(
    rt: &HostRuntime,
    path: &mut [u8],
    first: &mut [u8],
    second: &mut [u8],
) -> Result<(), files::Unreadable> {
    let n = files::read_argument(rt, 1, path, first)?;
    let m = files::read_argument(rt, 2, path, second)?;
    words::print(rt.stdout(), reconcile::reconcile(&first[..n], &second[..m]));
    Ok(())
}

// What cannot be read was reported.
fn run(rt: &HostRuntime, path: &mut [u8]) {
    let mut first = zeros::<FILE_AND_MORE>();
    let mut second = zeros::<FILE_AND_MORE>();
    let _ = compare(rt, path, &mut first, &mut second);
}

fn main(rt: HostRuntime) {
    let mut path = zeros::<LONGEST_ARGUMENT>();
    // Argument 0 is the program's own name.
    if files::is_given(&rt, 2, &mut path) && !files::is_given(&rt, 3, &mut path) {
        run(&rt, &mut path);
    } else {
        let _ = words::report_usage(rt.stderr());
    }
}
