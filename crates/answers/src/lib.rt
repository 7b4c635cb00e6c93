// What a request comes to, and the page on which answers are written and sent.
#![tactic(auto)]

use words::{LINE_FEED, SPACE};

// What a buffer that is answered held before a call wrote into it.
pub const BEFORE: u8 = 0xa5;

// The same of a list of numbers.
pub const BEFORE_NUMBER: u16 = 0xa5a5;

const NO_BYTES: u8 = b'-';

// The bytes that a page has.
const PAGE: usize = 131072;
// From here on what is written is sent before the next answer: any answer has room behind it.
const MUCH: usize = 32768;

// What a request comes to: an answer that stands on the page, without its line feed; or a number, two numbers or `ok` that is still to be
// written. A line that is none of the forms comes to nothing.
#[derive(Clone, Copy)]
pub enum Reply {
    Written,
    Number(u16),
    Numbers(u16, u16),
    Ok,
}

// The answers that are not sent yet: the bytes up to `at`, of which the last answer begins at `start`. What has no room is not written.
#[derive(Drop)]
pub struct Page {
    bytes: [u8; PAGE],
    start: usize,
    at: usize,
}

impl Page {
    pub fn new() -> Page {
        Page {
            bytes: [0; PAGE],
            start: 0,
            at: 0,
        }
    }

    // Begins an answer, with room for it: what is written is sent first, if that is much.
    pub fn begin(&mut self, to: &impl Print) {
        if MUCH <= self.at {
            self.send(to);
        }
        self.start = self.at;
    }

    // Ends the answer, which is `?` for a line that is none of the forms.
    pub fn finish(&mut self, reply: Option<Reply>) {
        match reply {
            Some(Reply::Written) => {}
            Some(Reply::Number(number)) => self.put_natural(u64::from(number)),
            Some(Reply::Numbers(number, more)) => {
                self.put_natural(u64::from(number));
                self.put_number(u64::from(more));
            }
            Some(Reply::Ok) => self.put_text(b"ok"),
            None => {
                self.at = self.start;
                self.put_text(b"?");
            }
        }
        self.put_byte(LINE_FEED);
    }

    // Sends what is written. Nothing is told where it could not be sent.
    pub fn send(&mut self, to: &impl Print) {
        let _ = to.write_all(front(&self.bytes, self.at));
        self.at = 0;
    }

    pub fn put_text(&mut self, text: &[u8]) {
        self.at = words::put_text(&mut self.bytes, self.at, text);
    }

    pub fn put_byte(&mut self, byte: u8) {
        self.at = words::put_byte(&mut self.bytes, self.at, byte);
    }

    pub fn put_natural(&mut self, value: u64) {
        self.at = words::put_natural(&mut self.bytes, self.at, value);
    }

    pub fn put_integer(&mut self, value: i32) {
        self.at = words::put_integer(&mut self.bytes, self.at, value);
    }

    // A space, unless the answer begins here.
    pub fn put_gap(&mut self) {
        if self.at != self.start {
            self.put_byte(SPACE);
        }
    }

    // A number after a space.
    pub fn put_number(&mut self, number: u64) {
        self.put_byte(SPACE);
        self.put_natural(number);
    }

    // Each number after a space. The place stands in a variable of the loop: a loop that keeps it in the page waits for it at each turn.
    pub fn put_numbers<T: Copy + Into<u64>>(&mut self, numbers: &[T]) {
        let mut at = self.at;
        for number in numbers {
            at = words::put_byte(&mut self.bytes, at, SPACE);
            at = words::put_natural(&mut self.bytes, at, (*number).into());
        }
        self.at = at;
    }

    // Bytes as one word, after a space.
    pub fn put_bytes(&mut self, bytes: &[u8]) {
        self.put_byte(SPACE);
        if bytes.is_empty() {
            self.put_byte(NO_BYTES);
        }
        let mut at = self.at;
        for byte in bytes {
            at = words::put_hex(&mut self.bytes, at, *byte);
        }
        self.at = at;
    }
}

// The first values of a list, or all of it where it has fewer.
pub fn front<T>(list: &[T], count: usize) -> &[T] {
    &list[..count.min(list.len())]
}
