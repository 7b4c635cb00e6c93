// One parcel of a good card as a picture needs it: its slot, its ring ends and its coordinates.
#![tactic(auto)]

ghost use Rattle.std.specs.Prelude.{◌≡◌, ◌<◌, IfSome};
ghost use Rattle.std.specs.Option.{unwrap_or};
ghost use Rattle.card.specs.Reading.{parcel_count, entry_of};
ghost use Rattle.field.specs.Fields.{Carries};

use contents::{GoodCard, MOST_NUMBERS};
use region::MOST_RINGS;

// What stands behind the last ring end and behind the last coordinate is 0. Memory is fixed, so a list has room for the longest.
#[derive(Clone, Copy)]
pub struct Field {
    pub slot: u16,
    pub rings: usize,
    pub ends: [u16; MOST_RINGS],
    pub numbers: [i32; MOST_NUMBERS],
}

pub fn field_at(card: &GoodCard, k: usize) -> Field
    requires { k < parcel_count card.now.bytes.now }
    ensures { Carries card.now.bytes.now k result }
{
    let parcel = card.parcel(k);
    let slot = card.slot_at(k);
    let rings = parcel.rings;
    let ends = parcel.ends;
    let numbers = parcel.numbers;
    Field {
        slot,
        rings,
        ends,
        numbers,
    }
}

// The place of the parcel in this slot among those of the card.
pub fn entry_of(card: &GoodCard, slot: u16) -> Option<usize>
    ensures value { unwrap_or result (parcel_count card.now.bytes.now) ≡ entry_of card.now.bytes.now slot }
    ensures there { IfSome result (λ k. k < parcel_count card.now.bytes.now) }
{
    for k in 0..card.parcel_count() {
        if card.slot_at(k) == slot {
            return Some(k);
        }
    }
    None
}
