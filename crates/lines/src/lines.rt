// The lines of a good card: one for each ordered pair of different parcels. A buffer and a place stay two parameters, as in `words`.
ghost use Rattle.std.specs.Prelude.{◌≡◌, ◌+◌, ◌≤◌, ◌<◌, length};
ghost use Rattle.endian.specs.Bytes.{joined};
ghost use Rattle.card.specs.Reading.{parcel_count};
ghost use Rattle.names.specs.Steps.{Put};
ghost use Rattle.lines.specs.Listing.{line_of};
ghost use Rattle.lines.specs.Steps.{row_of};

use carried::{drawn_in, pair_in};
use contents::GoodCard;
use line::put_line;

// The line of parcels j and k; a parcel has none with itself.
fn put_pair(out: &mut [u8], at: usize, card: &GoodCard, j: usize, k: usize) -> usize
    requires { (j < parcel_count card.now.bytes.now) × (k < parcel_count card.now.bytes.now) × (at + length (line_of card.now.bytes.now j k) ≤ length out.old) }
    ensures { Put out.old at (line_of card.now.bytes.now j k) result out.new }
{
    if j == k {
        return at;
    }
    let a = pair_in(card, j, k);
    let d = drawn_in(card, j, k);
    put_line(out, at, card.slot_at(j), card.slot_at(k), a, d)
}

// The lines of parcel j as primary, references rising.
fn put_row(out: &mut [u8], from: usize, card: &GoodCard, j: usize) -> usize
    requires { (j < parcel_count card.now.bytes.now) × (from + length (row_of card.now.bytes.now j) ≤ length out.old) }
    ensures { Put out.old from (row_of card.now.bytes.now j) result out.new }
{
    let mut at = from;
    for k in 0..card.parcel_count() {
        at = put_pair(out, at, card, j, k);
    }
    at
}

// All lines, primaries rising.
pub fn put_rows(out: &mut [u8], from: usize, card: &GoodCard) -> usize
    requires { from + length (joined (row_of card.now.bytes.now) (parcel_count card.now.bytes.now)) ≤ length out.old }
    ensures { Put out.old from (joined (row_of card.now.bytes.now) (parcel_count card.now.bytes.now)) result out.new }
{
    let mut at = from;
    for j in 0..card.parcel_count() {
        at = put_row(out, at, card, j);
    }
    at
}
