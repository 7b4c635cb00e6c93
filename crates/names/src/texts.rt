// Texts into a buffer. Each function answers the place behind what it wrote.
ghost use Rattle.std.specs.Prelude.{[], ◌∷◌, ◌++◌, ◌+◌, ◌≤◌, length};
ghost use Rattle.names.specs.Numbers.{decimal};
ghost use Rattle.names.specs.Steps.{Put};

// Not put_byte of `words`, which leaves out what has no room: here the room is known, and nothing is tested.
pub fn put_byte(out: &mut [u8], at: usize, byte: u8) -> usize
    requires { at + 1 ≤ length out.old }
    ensures { Put out.old at (byte ∷ []) result out.new }
{
    out[at] = byte;
    at + 1
}

pub fn put_text(out: &mut [u8], at: usize, text: &[u8]) -> usize
    requires { at + length text.now ≤ length out.old }
    ensures { Put out.old at text.now result out.new }
{
    words::put_text(out, at, text)
}

// A number and the byte that ends its word or its line.
pub fn put_number(out: &mut [u8], at: usize, n: u16, end: u8) -> usize
    requires { at + length (decimal n ++ (end ∷ [])) ≤ length out.old }
    ensures { Put out.old at (decimal n ++ (end ∷ [])) result out.new }
{
    let next = words::put_natural(out, at, n as u64);
    put_byte(out, next, end)
}
