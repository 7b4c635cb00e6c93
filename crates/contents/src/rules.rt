// The card's own rules: 14, 15, 2 and 3, 16, and 4 to 7, in this order.
ghost use Rattle.std.specs.Prelude.{◌≡◌, ◌<◌};
ghost use Rattle.region.specs.Refusals.{number_in};
ghost use Rattle.card.specs.Reading.{parcel_count};
ghost use Rattle.card.specs.CardNumber.{sizes_number, wrong_vertices, shape_number, card_number};
ghost use Rattle.card.specs.Right.{RightParcels, RightVertices};

use crate::{MOST_NUMBERS, first_vertex, read_ends, read_numbers};
use card::rules::wrong_parcels;
use card::{HeadedCard, parcel_count};
use endian::LittleEndian;
use outline::{check_shape, first_short, last_end};
use region::refusals::Refusal;
use region::{MOST_RINGS, MOST_VERTICES, Outline};

// Rules 2 and 3 of one parcel.
fn check_sizes(card: &[u8], k: usize) -> Result<(), Refusal>
    requires { RightParcels card.now × (k < parcel_count card.now) }
    ensures { number_in result ≡ sizes_number card.now k }
{
    let mut ends = [0u16; MOST_RINGS];
    let n = read_ends(card, k, &mut ends);
    if first_short(&ends[0..n]).is_some() {
        return Err(Refusal::RingLength);
    }
    if MOST_VERTICES < last_end(&ends[0..n]) {
        return Err(Refusal::ListSize);
    }
    Ok(())
}

fn wrong_vertices(card: &[u8]) -> bool
    requires { RightParcels card.now }
    ensures { result ≡ wrong_vertices card.now }
{
    first_vertex(card, parcel_count(card)) != u16::read(card, 4) as usize
}

// Rules 4 to 7 of one parcel.
fn check_outline(card: &[u8], k: usize) -> Result<(), Refusal>
    requires { RightVertices card.now × (k < parcel_count card.now) }
    ensures { number_in result ≡ shape_number card.now k }
{
    let mut ends = [0u16; MOST_RINGS];
    let rings = read_ends(card, k, &mut ends);
    let mut numbers = [0i32; MOST_NUMBERS];
    let n = read_numbers(card, k, &mut numbers);
    let outline = Outline {
        coordinates: &numbers[0..n],
        ends: &ends[0..rings],
    };
    check_shape(outline).map_err(|broken| broken.rule)
}

// What refuses a card by itself, if anything does.
pub fn check(card: &[u8]) -> Result<(), Refusal>
    ensures { number_in result ≡ card_number card.now }
{
    let headed = HeadedCard::read(card)?;
    if wrong_parcels(&headed) {
        return Err(Refusal::CardParcels);
    }
    let parcels = headed.parcel_count();
    for j in 0..parcels {
        check_sizes(card, j)?;
    }
    if wrong_vertices(card) {
        return Err(Refusal::CardVertices);
    }
    for k in 0..parcels {
        check_outline(card, k)?;
    }
    Ok(())
}
