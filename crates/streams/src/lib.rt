// Standard input and output, by the handles that `main` is given.
#![tactic(auto)]

ghost use Rattle.std.specs.Prelude.{◌≤◌, length};

use std::io::{Read, Stdin, Stdout, Write};

// Reads once, and answers how many octets came to the buffer's start: none at the end of the input, or where it cannot be read. Every caller takes the
// one for the other, so no Result tells them apart.
pub fn read_some(mut stdin: Stdin, buffer: &mut [u8]) -> usize
    ensures { result ≤ length buffer.new }
{
    stdin.read(buffer).unwrap_or(0)
}

// Reads until the buffer is full or the input ends, and answers how many octets came to the buffer's start.
pub fn read_full(stdin: Stdin, buffer: &mut [u8]) -> usize
    ensures { result ≤ length buffer.new }
{
    // How far a read comes is known only behind it, so no range has the places.
    let mut done: usize = 0;
    while done < buffer.len() {
        let more = read_some(stdin, &mut buffer[done..]);
        if more == 0 {
            return done;
        }
        done += more;
    }
    done
}

// Writes all of the octets and answers true, or stops at the first write that takes none or fails. A page remembers no more of it than that.
pub fn write_all(mut stdout: Stdout, octets: &[u8]) -> bool {
    stdout.write_all(octets).is_ok()
}
