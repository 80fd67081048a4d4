// The lines of standard input, taken by way of a buffer.
ghost use Rattle.std.specs.Prelude.{◌≡◌, ◌<◌, IsSome};

use crate::page::Page;
use std::io::Stdin;

// The most lines that a program takes: its loop must be shown to end.
pub const LINES: u64 = 4000000000;

// A line that is wrong or beyond the program's limits: the run ends there.
#[derive(Clone, Copy, Debug, PartialEq, Eq)]
pub struct Wrong;

// Standard input, the buffer that it is read into, which is lent (fixed memory), and where the octets that are left of the buffer begin and end.
#[derive(Drop)]
struct Input<'a> {
    stdin: Stdin,
    buffer: &'a mut [u8],
    at: usize,
    end: usize,
}

impl<'a> Input<'a> {
    // Fills the buffer anew, with nothing at the end of the input, or where it cannot be read.
    fn fill(&mut self) {
        self.at = 0;
        self.end = streams::read_some(self.stdin, self.buffer);
    }

    // The next octet, which stays there, or none where the input has ended.
    fn peek(&mut self) -> Option<u8>
        ensures { IsSome result → self.new.at < self.new.end }
    {
        if self.end <= self.at {
            self.fill();
        }
        let at = self.at;
        if self.end <= at {
            return None;
        }
        self.buffer.get(at).copied()
    }

    fn next(&mut self) -> Option<u8> {
        let octet = self.peek()?;
        self.at += 1;
        Some(octet)
    }
}

// The input, the space for a line, and the number of the line that was asked for last.
#[derive(Drop)]
pub struct Lines<'a> {
    input: Input<'a>,
    line: &'a mut [u8],
    number: u64,
}

impl<'a> Lines<'a> {
    pub fn new(stdin: Stdin, buffer: &'a mut [u8], line: &'a mut [u8]) -> Lines<'a> {
        let input = Input {
            stdin,
            buffer,
            at: 0,
            end: 0,
        };
        Lines {
            input,
            line,
            number: 0,
        }
    }

    // The next octet of the input, which stays there, or none where the input has ended.
    pub fn peek(&mut self) -> Option<u8> {
        self.input.peek()
    }

    // How many octets the next line has without its LF. The last one may lack its LF.
    fn take_octets(&mut self) -> Result<Option<usize>, Wrong> {
        for count in 0..=self.line.len() {
            match self.input.next() {
                None => return Ok(if count == 0 { None } else { Some(count) }),
                Some(b'\n') => return Ok(Some(count)),
                Some(octet) => *self.line.get_mut(count).ok_or(Wrong)? = octet,
            }
        }
        Err(Wrong)
    }

    // The next line, without its LF, or none behind the last. One that is too long is wrong, and so is any beyond the most lines.
    pub fn take(&mut self) -> Result<Option<&[u8]>, Wrong> {
        self.number = self.number.saturating_add(1);
        match self.take_octets()? {
            None => Ok(None),
            Some(_) if LINES < self.number => Err(Wrong),
            Some(count) => Ok(self.line.get(..count)),
        }
    }

    // Takes the lines in order and has each answered, up to their end, a wrong one, or a page that cannot be written.
    pub fn answer_all<F: FnMut(&[u8], &mut Page<'_>) -> Result<(), Wrong>>(
        &mut self,
        page: &mut Page<'_>,
        mut answer: F,
    ) -> Result<(), Wrong>
        requires { F.IsAlwaysCallable answer }
    {
        for _ in 0..=LINES {
            let Some(line) = self.take()? else {
                return Ok(());
            };
            let said = answer(line, page);
            if page.is_read_along() && !self.has_line() {
                page.flush();
            }
            said?;
            if !page.works() {
                return Ok(());
            }
        }
        Ok(())
    }

    // The number of the line that was asked for last, from 1 on.
    pub fn number(&self) -> u64
        ensures { result ≡ self.now.number }
    {
        self.number
    }

    // Whether a whole line is left of the buffer, so that it is taken without waiting for more of the input.
    pub fn has_line(&self) -> bool {
        let left = self.input.at..self.input.end;
        match self.input.buffer.get(left) {
            Some(rest) => rest.contains(&b'\n'),
            None => false,
        }
    }

    // The whole input, of which nothing was taken yet, as far as the buffer holds it.
    pub fn whole(&mut self) -> &[u8] {
        let input = &mut self.input;
        let (stdin, end) = (input.stdin, input.end);
        if let Some(rest) = input.buffer.get_mut(end..) {
            input.end = end + streams::read_full(stdin, rest);
        }
        let end = input.end;
        input.buffer.get(..end).unwrap_or_default()
    }
}
