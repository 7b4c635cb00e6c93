// The input, in chunks, and the lines in it; and what is left of a line: its words, and the outlines and cards that they make.
#![tactic(auto)]

pub mod names;
mod request;
mod rest;
#[cfg(test)]
mod tests;

ghost use Rattle.std.specs.Prelude.{◌≡◌, ◌+◌, ◌≤◌};
ghost use Rattle.input.specs.declared.TheConstants.{CHUNK, LINE};

pub use request::Request;
pub use rest::{Number, Rest};
use std::io::Read;
use words::LINE_FEED;

// The bytes that a line may have.
const LONGEST_LINE: usize = 65535;
// The bytes that are kept of a line: one more, by which a line is told that is too long.
const LINE: usize = 65536;

const CHUNK: usize = 65536;

// Where the reading stands: the bytes of the chunk from `from` to `to` are still to be taken; `held` bytes of the line have been. One that came
// whole is not copied: it stands in the chunk from `start` on, until more is taken or read. For one that is copied `start` is 0.
#[derive(Drop)]
pub struct Input {
    chunk: [u8; CHUNK],
    from: usize,
    to: usize,
    line: [u8; LINE],
    held: usize,
    start: usize,
    is_in_chunk: bool,
    ghost taken: { from ≤ to },
    ghost in_chunk: { to ≤ CHUNK },
    ghost in_line: { held ≤ LINE },
    ghost whole_in_chunk: { start + held ≤ CHUNK },
}

impl Input {
    pub fn new() -> Input {
        Input {
            chunk: [0; CHUNK],
            from: 0,
            to: 0,
            line: [0; LINE],
            held: 0,
            start: 0,
            is_in_chunk: false,
        }
    }

    // Takes the bytes of the chunk up to a line feed, or to its end, and answers whether there was one: the line is whole then.
    pub fn take_line(&mut self) -> bool {
        let chunk: &[u8] = &self.chunk;
        let rest = &chunk[self.from..self.to];
        let feed = rest.iter().position(|byte| *byte == LINE_FEED);
        let taken = feed.unwrap_or(rest.len());
        let is_line = feed.is_some();
        if is_line && self.held == 0 {
            self.start = self.from;
            self.held = taken;
            self.is_in_chunk = true;
        } else {
            self.keep_more(taken);
        }
        self.from = self.to.min(self.from + taken + 1);
        is_line
    }

    // So many bytes more of the line, as copies of what is still to be taken. Not part of its caller, as most lines do not come here.
    #[inline(never)]
    fn keep_more(&mut self, count: usize)
        requires { self.old.from + count ≤ CHUNK }
    {
        let from = self.from;
        self.copy_line();
        let chunk: &[u8] = &self.chunk;
        self.held = keep(&mut self.line, self.held, &chunk[from..from + count]);
    }

    // Copies of the line what stands in the chunk, so that more can follow it.
    fn copy_line(&mut self)
        ensures { self.new.start ≡ 0 }
    {
        if self.is_in_chunk {
            let chunk: &[u8] = &self.chunk;
            let line = &chunk[self.start..self.start + self.held];
            self.held = keep(&mut self.line, 0, line);
            self.is_in_chunk = false;
        }
        self.start = 0;
    }

    // Reads the next chunk, and answers whether there was one: the input is over where nothing comes, as after a read that failed.
    pub fn read_on(&mut self, from: &mut impl Read) -> bool {
        self.copy_line();
        let count = from.read(&mut self.chunk).unwrap_or(0);
        self.from = 0;
        self.to = count;
        count != 0
    }

    // The bytes of the line that were taken, unless it is too long.
    pub fn line(&self) -> Option<&[u8]> {
        if LONGEST_LINE < self.held {
            return None;
        }
        if self.is_in_chunk {
            return Some(&self.chunk[self.start..self.start + self.held]);
        }
        Some(&self.line[..self.held])
    }

    // A new line begins.
    pub fn next_line(&mut self) {
        self.held = 0;
    }
}

// Bytes more of a line. Where the line is full it stays so.
fn keep(line: &mut [u8; LINE], held: usize, bytes: &[u8]) -> usize
    requires { held ≤ LINE }
    ensures { result ≤ LINE }
{
    let count = bytes.len().min(LINE - held);
    let next = held + count;
    line[held..next].copy_from_slice(&bytes[..count]);
    next
}
