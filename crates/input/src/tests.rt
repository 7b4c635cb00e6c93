// What no clause says of the input: a line is all that was taken since the last one began, in whatever order it is taken, read and asked for.
use crate::Input;
use std::io;
use std::io::Read;

// Gives a piece at each read.
#[derive(Drop)]
struct Pieces {
    pieces: [&'static [u8]; 3],
    next: usize,
}

impl Read for Pieces {
    fn read(&mut self, buf: &mut [u8]) -> io::Result<usize> {
        let piece = self.pieces.get(self.next).copied().unwrap_or(b"");
        let count = piece.len().min(buf.len());
        buf[..count].copy_from_slice(&piece[..count]);
        self.next = self.next.saturating_add(1);
        Ok(count)
    }
}

fn three_pieces() -> Pieces {
    Pieces {
        pieces: [b"one\ntwo\nth", b"ree\n\nfour\n", b"five"],
        next: 0,
    }
}

#[test]
fn lines_one_by_one(rt: HostRuntime) {
    let mut from = three_pieces();
    let mut input = Input::new();
    assert!(rt; !input.take_line());
    assert!(rt; input.read_on(&mut from));
    for line in [&b"one"[..], b"two"] {
        assert!(rt; input.take_line());
        assert_eq!(rt; input.line(), Some(line));
        input.next_line();
    }
    assert!(rt; !input.take_line());
    assert!(rt; input.read_on(&mut from));
    for line in [&b"three"[..], b"", b"four"] {
        assert!(rt; input.take_line());
        assert_eq!(rt; input.line(), Some(line));
        input.next_line();
    }
    assert!(rt; !input.take_line());
    assert!(rt; input.read_on(&mut from));
    assert!(rt; !input.take_line());
    assert!(rt; !input.read_on(&mut from));
    assert_eq!(rt; input.line(), Some(&b"five"[..]));
}

#[test]
fn line_stands_when_the_next_chunk_is_read(rt: HostRuntime) {
    let mut from = three_pieces();
    let mut input = Input::new();
    assert!(rt; input.read_on(&mut from));
    assert!(rt; input.take_line());
    assert!(rt; input.read_on(&mut from));
    assert_eq!(rt; input.line(), Some(&b"one"[..]));
}

#[test]
fn line_goes_on_until_the_next_begins(rt: HostRuntime) {
    let mut from = three_pieces();
    let mut input = Input::new();
    assert!(rt; input.read_on(&mut from));
    assert!(rt; input.take_line());
    assert!(rt; input.take_line());
    assert_eq!(rt; input.line(), Some(&b"onetwo"[..]));
    assert!(rt; !input.take_line());
    assert_eq!(rt; input.line(), Some(&b"onetwoth"[..]));
    assert!(rt; input.read_on(&mut from));
    assert!(rt; input.take_line());
    assert_eq!(rt; input.line(), Some(&b"onetwothree"[..]));
    input.next_line();
    assert_eq!(rt; input.line(), Some(&b""[..]));
}

// Gives so many letters, and then nothing.
#[derive(Drop)]
struct Letters {
    left: usize,
}

impl Read for Letters {
    fn read(&mut self, buf: &mut [u8]) -> io::Result<usize> {
        let count = self.left.min(buf.len());
        buf[..count].fill(b'a');
        self.left -= count;
        Ok(count)
    }
}

#[test]
fn lines_of_65535_bytes_and_no_more(rt: HostRuntime) {
    for (count, is_taken) in [(65534, true), (65535, true), (65536, false), (70000, false)] {
        let mut from = Letters { left: count };
        let mut input = Input::new();
        assert!(rt; input.read_on(&mut from));
        assert!(rt; !input.take_line());
        assert_eq!(rt; input.read_on(&mut from), 65536 < count);
        assert!(rt; !input.take_line());
        assert_eq!(rt; input.line().is_some(), is_taken, "at {count}");
    }
}
