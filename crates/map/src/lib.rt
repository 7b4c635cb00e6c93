// The map of a good card's parcels.
#![tactic(auto)]

ghost use Rattle.std.specs.Prelude.{◌≡◌};

use contents::GoodCard;
use field::field_at;
use furniture::put_furniture;
use label::put_label;
use plot::put_parcels;
use scale::shape::shape_of;
use scale::view::{Extent, View, bottom, extent_of, joined, nothing, view_of};
use svg::{Page, put_foot, put_head};

pub mod furniture;
pub mod label;

// Between what places all parcels lie.
pub fn extent_of_card(card: &GoodCard) -> Extent {
    let mut e = nothing();
    for k in 0..card.parcel_count() {
        let f = field_at(card, k);
        e = joined(e, extent_of(f));
    }
    e
}

// A loop of its own beside that of `put_parcels`, whose contract says what is written of each parcel.
pub fn put_labels(page: &mut Page, card: &GoodCard, v: View)
    ensures { page.new.out.ghost_name ≡ page.old.out.ghost_name }
{
    for k in 0..card.parcel_count() {
        let f = field_at(card, k);
        put_label(page, shape_of(v, f));
    }
}

// All parcels, in a group whose start says what they have in common: the look of their outlines, and how far they let the ground through.
pub fn put_filled(page: &mut Page, card: &GoodCard, v: View, start: &str)
    ensures { page.new.out.ghost_name ≡ page.old.out.ghost_name }
{
    write!(page, "{start}");
    put_parcels(page, card, v);
    write!(page, "</g>\n");
}

// How a group of labels starts.
pub fn start_labels(page: &mut Page)
    ensures { page.new.out.ghost_name ≡ page.old.out.ghost_name }
{
    write!(
        page,
        "<g text-anchor='middle' font-weight='bold' stroke='#ffffff' stroke-width='60' stroke-linejoin='round' paint-order='stroke'>\n"
    );
}

// All labels, above everything else.
pub fn put_named(page: &mut Page, card: &GoodCard, v: View)
    ensures { page.new.out.ghost_name ≡ page.old.out.ghost_name }
{
    start_labels(page);
    put_labels(page, card, v);
    write!(page, "</g>\n");
}

// The whole picture of a card without a pair.
pub fn put_map(page: &mut Page, card: &GoodCard)
    ensures { page.new.out.ghost_name ≡ page.old.out.ghost_name }
{
    let v = view_of(extent_of_card(card));
    put_head(
        page,
        bottom(v) + 900,
        format_args!("Map of parcels: {}", card.parcel_count()),
        "Each parcel is filled and labelled with its slot. North is up. A bar shows a length in map units.",
    );
    put_filled(
        page,
        card,
        v,
        "<g stroke-linejoin='round' stroke='#3a3a3a' stroke-width='20' fill-opacity='0.8'>\n",
    );
    put_furniture(page, v);
    put_named(page, card, v);
    put_foot(page);
}
