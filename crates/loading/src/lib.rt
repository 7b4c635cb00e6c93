// A card into a sheet.
#![tactic(auto)]

ghost use Rattle.std.specs.Prelude.{◌≡◌, ◌<◌};
ghost use Rattle.region.specs.Refusals.{number_in};
ghost use Rattle.layout.specs.Sheet.{sheet_of, RightLists};
ghost use Rattle.region.specs.Region.{outline};
ghost use Rattle.layout.specs.Layout.{layout, blank};
ghost use Rattle.layout.specs.Changes.{with_parcel, Changeable};
ghost use Rattle.layout.specs.BoxList.{Boxed};
ghost use Rattle.card.specs.Reading.{parcel_count, slot_at, region_at, parcel_in};
ghost use Rattle.loading.specs.Load.{load_number, load};

use contents::GoodCard;
use layout::lists::SLOTS;
use placing::NO_BOXES;
use placing::writing::write_among;
use plane::Box;
use region::refusals::Refusal;
use storage::lists::{check_lists, clear_lists};

// Parcel k of the card into its slot. A good card's outlines keep the rules, and a sheet that is being laid out is not damaged: neither is
// asked again.
fn lay_parcel(
    xs: &mut [i32],
    records: &mut [u16],
    relations: &mut [u16],
    boxes: &mut [Box; SLOTS],
    card: &GoodCard,
    k: usize,
)
    requires { (k < parcel_count card.now.bytes.now) × Changeable (sheet_of xs.old records.old relations.old) (slot_at card.now.bytes.now k) × Boxed boxes.old xs.old records.old }
    ensures relations_after { sheet_of xs.new records.new relations.new ≡ with_parcel (sheet_of xs.old records.old relations.old) (slot_at card.now.bytes.now k) (outline (region_at card.now.bytes.now k)) }
    ensures boxed { Boxed boxes.new xs.new records.new }
{
    let parcel = card.parcel(k);
    let slot = card.slot_at(k) as usize;
    write_among(xs, records, relations, boxes, slot, parcel.outline());
}

// The parcels of the card onto a sheet where nothing stands. The boxes are handed on from parcel to parcel.
fn lay_parcels(
    xs: &mut [i32],
    records: &mut [u16],
    relations: &mut [u16],
    boxes: &mut [Box; SLOTS],
    card: &GoodCard,
)
    requires { (sheet_of xs.old records.old relations.old ≡ blank) × Boxed boxes.old xs.old records.old }
    ensures { sheet_of xs.new records.new relations.new ≡ layout (parcel_in card.now.bytes.now) }
{
    let parcels = card.parcel_count();
    for k in 0..parcels {
        lay_parcel(xs, records, relations, boxes, card, k);
    }
}

// The parcels of the card, and nothing else, onto the sheet.
fn lay_out(xs: &mut [i32], records: &mut [u16], relations: &mut [u16], card: &GoodCard)
    requires { RightLists (sheet_of xs.old records.old relations.old) }
    ensures { sheet_of xs.new records.new relations.new ≡ layout (parcel_in card.now.bytes.now) }
{
    clear_lists(xs, records, relations);
    let mut boxes = NO_BOXES;
    lay_parcels(xs, records, relations, &mut boxes, card);
}

// Nothing is written before the whole card is checked.
pub fn load(
    xs: &mut [i32],
    records: &mut [u16],
    relations: &mut [u16],
    card: &[u8],
) -> Result<(), Refusal>
    ensures value { number_in result ≡ load_number (sheet_of xs.old records.old relations.old) card.now }
    ensures relations_after { sheet_of xs.new records.new relations.new ≡ load (sheet_of xs.old records.old relations.old) card.now }
{
    check_lists(xs, records, relations)?;
    let card = GoodCard::read(card)?;
    lay_out(xs, records, relations, &card);
    Ok(())
}
