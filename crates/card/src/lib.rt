// The entries of a card, by its layout, and the rules that its header and its entries keep.
#![tactic(auto)]

ghost use Rattle.std.specs.Prelude.{◌≡◌, false, ◌+◌, ◌*◌, ◌≤◌, length, IfOk};
ghost use Rattle.region.specs.declared.refusals.Refusal.TheVariants.{CardHeader};
ghost use Rattle.region.specs.Refusals.{number_in, number_if};
ghost use Rattle.card.specs.Layout.{most_card_parcels, parcels_at};
ghost use Rattle.card.specs.Reading.{parcel_count, slot_at, count_at, first_ring};
ghost use Rattle.card.specs.CardNumber.{wrong_header};

use endian::LittleEndian;
use region::refusals::Refusal;

pub mod rules;

pub const PARCELS_AT: usize = 12;

pub fn parcel_count(card: &[u8]) -> usize
    requires { 2 ≤ length card.now }
    ensures { result ≡ parcel_count card.now }
{
    u16::read(card, 0) as usize
}

pub fn slot_at(card: &[u8], k: usize) -> u16
    requires { parcels_at + 4 * k + 4 ≤ length card.now }
    ensures { result ≡ slot_at card.now k }
{
    u16::read(card, PARCELS_AT + 4 * k)
}

pub fn count_at(card: &[u8], k: usize) -> usize
    requires { parcels_at + 4 * k + 4 ≤ length card.now }
    ensures { (result ≡ count_at card.now k) × (result ≤ 65535) }
{
    u16::read(card, PARCELS_AT + 4 * k + 2) as usize
}

// A card whose header is right: it keeps rule 14, and so its length is what its counts say.
#[derive(Clone, Copy)]
pub struct HeadedCard<'a> {
    pub bytes: &'a [u8],
    ghost header: { wrong_header bytes.now ≡ false },
}

impl<'a> HeadedCard<'a> {
    pub fn read(bytes: &'a [u8]) -> Result<HeadedCard<'a>, Refusal>
        ensures refusal { number_in result ≡ number_if (wrong_header bytes.now) CardHeader }
        ensures card { IfOk result (λ card. card.bytes.now ≡ bytes.now) }
    {
        if rules::wrong_header(bytes) {
            return Err(Refusal::CardHeader);
        }
        Ok(HeadedCard { bytes })
    }

    pub fn parcel_count(&self) -> usize
        ensures { (result ≡ parcel_count self.now.bytes.now) × (result ≤ most_card_parcels) }
    {
        parcel_count(self.bytes)
    }

    // How many rings the parcels before k have.
    pub fn first_ring(&self, k: usize) -> usize
        requires { k ≤ parcel_count self.now.bytes.now }
        ensures { result ≡ first_ring self.now.bytes.now k }
    {
        let mut rings: usize = 0;
        for i in 0..k {
            rings += count_at(self.bytes, i);
        }
        rings
    }
}
