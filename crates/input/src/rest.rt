// What is left of a line, from a place on. Each function takes what comes next there, or answers that something else does. The short ones are
// part of whoever calls them, so that the place stands in a register.
ghost use Rattle.std.specs.Prelude.{◌≡◌};
ghost use Rattle.words.specs.Numbers.{natural_at, last_of};

use crate::Request;
use region::Outline;
use words::Word;

// A number that a word of a line can say.
pub trait Number: Copy {
    fn read(line: &[u8], from: usize) -> Option<Word<Self>>;

    // The same, where nothing stands after it.
    fn read_last(line: &[u8], from: usize) -> Option<Word<Self>> {
        let word = Self::read(line, from)?;
        words::is_over(line, word.next).then_some(word)
    }
}

impl Number for u8 {
    fn read(line: &[u8], from: usize) -> Option<Word<u8>> {
        let Word { value, next } = words::read_natural(line, from)?;
        Some(Word {
            value: u8::try_from(value).ok()?,
            next,
        })
    }
}

impl Number for u16 {
    fn read(line: &[u8], from: usize) -> Option<Word<u16>> {
        words::read_natural(line, from)
    }

    fn read_last(line: &[u8], from: usize) -> Option<Word<u16>>
        ensures { result ≡ last_of line.now (natural_at line.now from) }
    {
        words::read_last_natural(line, from)
    }
}

impl Number for i32 {
    fn read(line: &[u8], from: usize) -> Option<Word<i32>> {
        words::read_integer(line, from)
    }
}

#[derive(Clone, Copy)]
pub struct Rest<'a> {
    line: &'a [u8],
    from: usize,
}

impl<'a> Rest<'a> {
    // A whole line.
    pub fn of(line: &'a [u8]) -> Rest<'a> {
        Rest { line, from: 0 }
    }

    // Nothing is left but spaces.
    pub fn is_over(&self) -> bool {
        words::is_over(self.line, self.from)
    }

    #[inline(always)]
    pub fn end(&self) -> Option<()> {
        self.is_over().then_some(())
    }

    // A request by its name.
    #[inline(always)]
    pub fn request(&mut self) -> Option<Request> {
        let Word { value, next } = words::read_name(self.line, self.from);
        self.from = next;
        Request::named(value)
    }

    #[inline(always)]
    pub fn number<T: Number>(&mut self) -> Option<T> {
        let Word { value, next } = T::read(self.line, self.from)?;
        self.from = next;
        Some(value)
    }

    // The last number of the line.
    #[inline(always)]
    pub fn last<T: Number>(&mut self) -> Option<T> {
        let Word { value, next } = T::read_last(self.line, self.from)?;
        self.from = next;
        Some(value)
    }

    // As many numbers as the list has.
    pub fn numbers<T: Number>(&mut self, into: &mut [T]) -> Option<()> {
        for place in into.iter_mut() {
            *place = self.number()?;
        }
        Some(())
    }

    // The count of numbers and the numbers, into the start of a list whose length is the most that there may be.
    pub fn list<'b, T: Number>(&mut self, into: &'b mut [T]) -> Option<&'b [T]> {
        let count: u16 = self.number()?;
        let list = into.get_mut(..usize::from(count))?;
        self.numbers(list)?;
        Some(list)
    }

    // An outline, into the start of lists whose lengths are the most that it may have.
    pub fn outline<'b>(
        &mut self,
        coordinates: &'b mut [i32],
        ends: &'b mut [u16],
    ) -> Option<Outline<'b>> {
        let ends = self.list(ends)?;
        let coordinates = self.list(coordinates)?;
        Some(Outline { coordinates, ends })
    }

    // The bytes that are the last word, into the start of a list. A line of 65,535 bytes has digits for at most 32,767, so every card that is
    // read has room in a list of 32,768.
    pub fn last_bytes<'b>(&mut self, into: &'b mut [u8]) -> Option<&'b [u8]> {
        let Word { value, next } = words::read_bytes(self.line, self.from, into)?;
        self.from = next;
        self.end()?;
        into.get(..value)
    }
}
