// The rules that the header and the entries of a card keep: 14 and 15.
ghost use Rattle.std.specs.Prelude.{◌≡◌, ◌&&◌, ◌-◌, ◌<◌, leb, ltb};
ghost use Rattle.card.specs.Reading.{parcel_count, slot_at};
ghost use Rattle.card.specs.CardNumber.{wrong_header, wrong_entry, wrong_parcels};

use crate::{HeadedCard, PARCELS_AT, count_at, slot_at};
use endian::LittleEndian;
use region::MOST_RINGS;

const MOST_CARD_PARCELS: usize = 32;

const MOST_CARD_RINGS: usize = 256;

const MOST_CARD_VERTICES: usize = 2048;

const LAST_CARD_SLOT: u16 = 31;

pub fn wrong_header(card: &[u8]) -> bool
    ensures { result ≡ wrong_header card.now }
{
    if card.len() < PARCELS_AT {
        return true;
    }
    let parcels = u16::read(card, 0) as usize;
    if MOST_CARD_PARCELS < parcels {
        return true;
    }
    let rings = u16::read(card, 2) as usize;
    if MOST_CARD_RINGS < rings {
        return true;
    }
    let vertices = u16::read(card, 4) as usize;
    if MOST_CARD_VERTICES < vertices {
        return true;
    }
    if u16::read(card, 6) as usize != PARCELS_AT {
        return true;
    }
    let rings_at = PARCELS_AT + 4 * parcels;
    if u16::read(card, 8) as usize != rings_at {
        return true;
    }
    let vertices_at = rings_at + 2 * rings;
    if u16::read(card, 10) as usize != vertices_at {
        return true;
    }
    card.len() != vertices_at + 8 * vertices
}

// The slot of entry k is no higher than that of the entry before it.
fn falls_back(card: &HeadedCard, k: usize) -> bool
    requires { k < parcel_count card.now.bytes.now }
    ensures { result ≡ (ltb 0 k && leb (slot_at card.now.bytes.now k) (slot_at card.now.bytes.now (k - 1))) }
{
    if k == 0 {
        return false;
    }
    slot_at(card.bytes, k) <= slot_at(card.bytes, k - 1)
}

fn wrong_entry(card: &HeadedCard, k: usize) -> bool
    requires { k < parcel_count card.now.bytes.now }
    ensures { result ≡ wrong_entry card.now.bytes.now k }
{
    if falls_back(card, k) {
        return true;
    }
    if LAST_CARD_SLOT < slot_at(card.bytes, k) {
        return true;
    }
    let count = count_at(card.bytes, k);
    if count == 0 {
        return true;
    }
    MOST_RINGS < count
}

pub fn wrong_parcels(card: &HeadedCard) -> bool
    ensures { result ≡ wrong_parcels card.now.bytes.now }
{
    let parcels = card.parcel_count();
    for k in 0..parcels {
        if wrong_entry(card, k) {
            return true;
        }
    }
    card.first_ring(parcels) != u16::read(card.bytes, 2) as usize
}
