// Files that arguments name, read to their end or until the buffer is full.
ghost use Rattle.std.specs.Prelude.{◌≤◌, length, IfOk};

use crate::words::report_unreadable;
use std::env::Env;
use std::fs::{self, File};
use std::io::Read;
use std::str;

// A file that cannot be read.
#[derive(Clone, Copy)]
pub struct Unreadable;

// Reads an open file, and answers how many octets it has or the buffer holds: a slice of the buffer could not stand beside it in the clause. A read that
// fails is told apart from the end of the file, which `streams` does not: a folder can be opened, and its first read fails.
fn read_open(mut open: File, file: &mut [u8]) -> Result<usize, Unreadable>
    ensures { IfOk result (λ count. count ≤ length file.new) }
{
    // How far a read comes is known only behind it, so no range has the places.
    let mut done: usize = 0;
    while done < file.len() {
        match open.read(&mut file[done..]) {
            Ok(0) => return Ok(done),
            Ok(more) => done += more,
            Err(_) => return Err(Unreadable),
        }
    }
    Ok(done)
}

// A path is text in UTF-8.
fn read_named(rt: &HostRuntime, path: &[u8], file: &mut [u8]) -> Result<usize, Unreadable>
    ensures { IfOk result (λ count. count ≤ length file.new) }
{
    let text = str::from_utf8(path).map_err(|_| Unreadable)?;
    let open = fs::open(rt, text).map_err(|_| Unreadable)?;
    read_open(open, file)
}

// Whether there is an argument `i`.
pub fn is_given(rt: &HostRuntime, i: usize, path: &mut [u8]) -> bool {
    rt.arg(i, path).is_ok()
}

// Reads the file that argument `i` names, or reports that it cannot be read.
pub fn read_argument(
    rt: &HostRuntime,
    i: usize,
    path: &mut [u8],
    file: &mut [u8],
) -> Result<usize, Unreadable>
    ensures { IfOk result (λ count. count ≤ length file.new) }
{
    let n = rt.arg(i, path).unwrap_or(0);
    let read = read_named(rt, &path[..n], file);
    if read.is_err() {
        // Nothing is left to do where standard error cannot be written.
        let _ = report_unreadable(rt.stderr(), &path[..n]);
    }
    read
}
