// The list of a card: what a card is refused with, or the count of its parcels and a line for each ordered pair of different ones.
#![tactic(auto)]

ghost use Rattle.std.specs.Prelude.{◌≡◌, ◌++◌, length, drop};
ghost use Rattle.lines.specs.Listing.{listing};

mod lines;

use crate::lines::put_rows;
use contents::GoodCard;
use names::{put_number, put_text};
use words::LINE_FEED;

// The list of any card, good or not, from the front of the buffer: any list has room there.
pub fn list(card: &[u8], out: &mut [u8; 131072]) -> usize
    ensures value { result ≡ length (listing card.now) }
    ensures out_after { out.new ≡ listing card.now ++ drop (length (listing card.now)) out.old }
{
    match GoodCard::read(card) {
        Ok(card) => {
            let at = put_text(out, 0, b"parcels ");
            let at = put_number(out, at, card.parcel_count() as u16, LINE_FEED);
            put_rows(out, at, &card)
        }
        Err(refusal) => {
            let at = put_text(out, 0, b"refused ");
            put_number(out, at, u16::from(refusal), LINE_FEED)
        }
    }
}
