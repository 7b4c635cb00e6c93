// The parcels of a card: ring ends and coordinates of each, read out of the bytes, and the number that refuses a card by itself.
#![tactic(auto)]

ghost use Rattle.std.specs.Prelude.{◌≡◌, ◌++◌, ◌*◌, ◌≤◌, ◌<◌, pos, length, take, drop, replicate, IfOk};
ghost use Rattle.region.specs.Refusals.{number_in};
ghost use Rattle.region.specs.Region.{most_rings, most_vertices, last_end};
ghost use Rattle.card.specs.Layout.{rings_at, vertices_at};
ghost use Rattle.card.specs.Reading.{parcel_count, ring_count, slot_at, count_at, first_vertex, ends_at, numbers_at};
ghost use Rattle.card.specs.CardNumber.{card_number};
ghost use Rattle.card.specs.Right.{RightParcels, RightVertices};

use card::{HeadedCard, PARCELS_AT, count_at, parcel_count, slot_at};
use endian::{LittleEndian, read_all};
use outline::last_end;
use region::refusals::Refusal;
use region::{MOST_RINGS, MOST_VERTICES, Outline};

pub mod rules;

// How many coordinates a parcel may have.
pub const MOST_NUMBERS: usize = 2 * MOST_VERTICES;

// One parcel of a card: its ring ends and its coordinates, each from the front of a list, behind which stands 0. Memory is fixed,
// so a list has room for the longest.
#[derive(Clone, Copy)]
pub struct Parcel {
    pub rings: usize,
    pub ends: [u16; MOST_RINGS],
    pub size: usize,
    pub numbers: [i32; MOST_NUMBERS],
    ghost few: { (rings ≤ 8) × (size ≤ 128) },
}

impl Parcel {
    pub fn outline(&self) -> Outline<'_>
        ensures { (result.coordinates.now ≡ take self.now.size self.now.numbers) × (result.ends.now ≡ take self.now.rings self.now.ends) }
    {
        Outline {
            coordinates: &self.numbers[..self.size],
            ends: &self.ends[..self.rings],
        }
    }
}

// A card that no rule refuses (SCOPE 8.4), and so one whose parcels are all there and keep rules 1 to 7.
#[derive(Clone, Copy)]
pub struct GoodCard<'a> {
    pub bytes: &'a [u8],
    pub ghost good: { card_number bytes.now ≡ 0 },
}

impl<'a> GoodCard<'a> {
    // The card, or what refuses it by itself.
    pub fn read(bytes: &'a [u8]) -> Result<GoodCard<'a>, Refusal>
        ensures refusal { number_in result ≡ card_number bytes.now }
        ensures card { IfOk result (λ card. card.bytes.now ≡ bytes.now) }
    {
        rules::check(bytes)?;
        Ok(GoodCard { bytes })
    }

    pub fn parcel_count(&self) -> usize
        ensures { (result ≡ parcel_count self.now.bytes.now) × (result ≤ 32) }
    {
        parcel_count(self.bytes)
    }

    pub fn slot_at(&self, k: usize) -> u16
        requires { k < parcel_count self.now.bytes.now }
        ensures { result ≡ slot_at self.now.bytes.now k }
    {
        slot_at(self.bytes, k)
    }

    pub fn parcel(&self, k: usize) -> Parcel
        requires { k < parcel_count self.now.bytes.now }
        ensures counts { (result.rings ≡ count_at self.now.bytes.now k) × (result.size ≡ 2 * last_end (ends_at self.now.bytes.now k)) }
        ensures ends { take result.rings result.ends ≡ ends_at self.now.bytes.now k }
        ensures numbers { take result.size result.numbers ≡ numbers_at self.now.bytes.now k }
        ensures rest { (drop result.rings result.ends ≡ drop result.rings (replicate 8 0)) × (drop result.size result.numbers ≡ drop result.size (replicate 128 (pos 0))) }
    {
        let mut ends = [0u16; MOST_RINGS];
        let rings = read_ends(self.bytes, k, &mut ends);
        let mut numbers = [0i32; MOST_NUMBERS];
        let size = read_numbers(self.bytes, k, &mut numbers);
        Parcel {
            rings,
            ends,
            size,
            numbers,
        }
    }
}

fn rings_at(card: &HeadedCard) -> usize
    ensures { result ≡ rings_at (parcel_count card.now.bytes.now) }
{
    PARCELS_AT + 4 * card.parcel_count()
}

fn vertices_at(card: &HeadedCard) -> usize
    ensures { result ≡ vertices_at (parcel_count card.now.bytes.now) (ring_count card.now.bytes.now) }
{
    rings_at(card) + 2 * u16::read(card.bytes, 2) as usize
}

// The ring ends of parcel k to the front of a list; what stands behind them stays.
pub fn read_ends(card: &[u8], k: usize, ends: &mut [u16]) -> usize
    requires { RightParcels card.now × (k < parcel_count card.now) × (most_rings ≤ length ends.old) }
    ensures value { result ≡ count_at card.now k }
    ensures ends_after { ends.new ≡ ends_at card.now k ++ drop result ends.old }
{
    let n = count_at(card, k);
    let headed = HeadedCard { bytes: card };
    let from = rings_at(&headed) + 2 * headed.first_ring(k);
    read_all(card, from, &mut ends[..n]);
    n
}

// How many vertices parcel k has.
fn vertices_of(card: &[u8], k: usize) -> usize
    requires { RightParcels card.now × (k < parcel_count card.now) }
    ensures { result ≡ last_end (ends_at card.now k) }
{
    let mut ends = [0u16; MOST_RINGS];
    let n = read_ends(card, k, &mut ends);
    last_end(&ends[0..n])
}

// How many vertices the parcels before k have. A loop of its own beside that of `first_ring`, as other cards may be asked: with the count as a
// closure, what it may be asked for would be one fact more to hand on.
fn first_vertex(card: &[u8], k: usize) -> usize
    requires { RightParcels card.now × (k ≤ parcel_count card.now) }
    ensures { result ≡ first_vertex card.now k }
{
    let mut vertices: usize = 0;
    for i in 0..k {
        vertices += vertices_of(card, i);
    }
    vertices
}

// The coordinates of parcel k to the front of a list; what stands behind them stays.
pub fn read_numbers(card: &[u8], k: usize, numbers: &mut [i32]) -> usize
    requires { RightVertices card.now × (k < parcel_count card.now) × (2 * most_vertices ≤ length numbers.old) }
    ensures value { result ≡ 2 * last_end (ends_at card.now k) }
    ensures numbers_after { numbers.new ≡ numbers_at card.now k ++ drop result numbers.old }
{
    let n = 2 * vertices_of(card, k);
    let headed = HeadedCard { bytes: card };
    let from = vertices_at(&headed) + 8 * first_vertex(card, k);
    read_all(card, from, &mut numbers[..n]);
    n
}
