// A card from standard input.
#![tactic(auto)]

ghost use Rattle.std.specs.Prelude.{◌≡◌, ◌<◌, false, length, take};
ghost use Rattle.std.specs.Io.KnownBytes.{Consumes, IsAtEnd};
ghost use Rattle.io.specs.Counts.{IsPrefixLen};

use std::io::Read;

// How many bytes were read, and whether a read failed, so that there may have been more. No Result: what came before a failure is wanted too.
#[derive(Clone, Copy)]
pub struct Input {
    pub count: usize,
    pub failed: bool,
}

// Reads until the buffer is full, the input is over or a read fails.
pub fn read_card<R: Read>(from: &mut R, card: &mut [u8]) -> Input
    ensures count { IsPrefixLen result.count card.new }
    ensures bytes { Consumes (R.remaining from.old) (R.remaining from.new) (take result.count card.new) }
    ensures end { result.failed ≡ false → result.count < length card.new → IsAtEnd (R.remaining from.new) }
{
    let mut count = 0;
    // The while: a read brings any number of bytes, so the step is not one.
    while count < card.len() {
        match from.read(&mut card[count..]) {
            Ok(0) => {
                return Input {
                    count,
                    failed: false,
                };
            }
            Ok(more) => count += more,
            Err(_) => {
                return Input {
                    count,
                    failed: true,
                };
            }
        }
    }
    Input {
        count,
        failed: false,
    }
}
