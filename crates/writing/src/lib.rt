// A sheet into a card.
#![tactic(auto)]

ghost use Rattle.std.specs.Prelude.{◌≡◌};
ghost use Rattle.layout.specs.Sheet.{sheet_of};
ghost use Rattle.writing.specs.Write.{written_in, written, write};

use card::PARCELS_AT;
use region::refusals::Refusal;
use steps::{count_all, put_card};
use storage::refused::check_whole;

mod steps;

// How many parcels, rings and vertices stand.
#[derive(Clone, Copy)]
pub struct Totals {
    pub parcels: usize,
    pub rings: usize,
    pub vertices: usize,
}

// The length of the card.
pub fn write(
    xs: &[i32],
    records: &[u16],
    relations: &[u16],
    buffer: &mut [u8],
) -> Result<usize, Refusal>
    ensures value { written_in result ≡ written (sheet_of xs.now records.now relations.now) buffer.old }
    ensures buffer_after { buffer.new ≡ write (sheet_of xs.now records.now relations.now) buffer.old }
{
    let standing = check_whole(xs, records, relations)?;
    let t = count_all(&standing);
    let length = PARCELS_AT + 4 * t.parcels + 2 * t.rings + 8 * t.vertices;
    if buffer.len() < length {
        return Err(Refusal::BufferShort);
    }
    put_card(buffer, &standing, t);
    Ok(length)
}

// The number and the length of what writing answers: 0 and the card's length, or the number of the refusal and 0.
pub fn number_and_length(answer: Result<usize, Refusal>) -> (u16, usize)
    ensures { written_in answer ≡ record { number = result.0; length = result.1 } }
{
    match answer {
        Ok(length) => (0, length),
        Err(refusal) => (refusal.into(), 0),
    }
}
