// The page: the buffer that an SVG picture is written into, and the place behind what is written so far.
ghost use Rattle.std.specs.Prelude.{◌≡◌, [], ◌∷◌, take};
ghost use Rattle.names.specs.Numbers.{decimal};
ghost use Rattle.svg.specs.Ink.{InkedOn};

use std::fmt;
use words::{put_natural, put_text};

// No method asks anything of its caller: a text that has no room in the buffer is not written.
#[derive(Drop)]
pub struct Page<'a> {
    pub out: &'a mut [u8],
    pub at: usize,
}

impl<'a> Page<'a> {
    // An empty page over this buffer.
    pub fn new(out: &'a mut [u8]) -> Page<'a>
        ensures same_buffer { result.out.ghost_name ≡ out.entry.ghost_name }
        ensures buffer { result.out.now ≡ out.old }
        ensures start { result.at ≡ 0 }
    {
        Page { out, at: 0 }
    }

    pub fn text(&mut self, text: &[u8])
        ensures { InkedOn self.old (text.now ∷ []) self.new }
    {
        self.at = put_text(self.out, self.at, text);
    }

    pub fn number(&mut self, n: u16)
        ensures { InkedOn self.old (decimal n ∷ []) self.new }
    {
        self.at = put_natural(self.out, self.at, u64::from(n));
    }

    // What is written so far.
    pub fn written(&self) -> &[u8]
        ensures { result.now ≡ take self.now.at self.now.out.now }
    {
        &self.out[..self.at.min(self.out.len())]
    }

    // What `write!` calls. A page takes every text, so there is no error to hand on.
    // The text is written through a page of its own, so that this one stays over its buffer whatever the value's own writing does.
    pub fn write_fmt<D: fmt::Display + Drop>(&mut self, value: D)
        ensures { self.new.out.ghost_name ≡ self.old.out.ghost_name }
    {
        let mut rest = Page {
            out: self.out,
            at: self.at,
        };
        let _ = fmt::Write::write_fmt(&mut rest, value);
        self.at = rest.at;
    }
}

impl fmt::Write for Page<'_> {
    fn write_str(&mut self, s: &str) -> fmt::Result {
        self.text(s.as_bytes());
        Ok(())
    }
}
