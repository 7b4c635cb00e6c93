// The picture of two parcels of a good card: the one in the first slot, the primary, seen from the one in the second, the reference.
#![tactic(auto)]

ghost use Rattle.std.specs.Prelude.{◌≡◌, ◌<◌};
ghost use Rattle.card.specs.Reading.{parcel_count};

use caption::put_answer;
use carried::pair_in;
use contents::GoodCard;
use field::{Field, field_at};
use map::furniture::put_furniture;
use map::label::put_label;
use map::{extent_of_card, put_filled, start_labels};
use overlay::cuts::put_cuts;
use overlay::tiles::{Grid, put_lines, put_names, put_tints};
use pair::Answer;
use plot::put_outline;
use scale::shape::{Shape, shape_of};
use scale::view::{View, bottom, extent_of, view_of};
use svg::{Page, put_foot, put_head};

fn put_opening(page: &mut Page, primary: u16, reference: u16, height: u16)
    ensures { page.new.out.ghost_name ≡ page.old.out.ghost_name }
{
    put_head(
        page,
        height,
        format_args!("Parcel {primary} seen from parcel {reference}"),
        "The lines of the second parcel's box cut the map into nine tiles; those that the first lies in are tinted. \
        Circles mark where the lines cut its edges. Below stand tiles, directions, pieces and matrix.",
    );
}

// The two parcels, above the pale map.
fn put_two(page: &mut Page, primary: Shape, reference: Shape)
    ensures { page.new.out.ghost_name ≡ page.old.out.ghost_name }
{
    put_outline(
        page,
        reference,
        b"fill='#56b4e9' fill-opacity='0.5' stroke='#0b3d91' stroke-width='40' stroke-linejoin='round'/>\n",
    );
    put_outline(
        page,
        primary,
        b"fill='#e69f00' fill-opacity='0.5' stroke='#7a3b00' stroke-width='40' stroke-linejoin='round'/>\n",
    );
}

// The labels of the two parcels.
fn put_labels(page: &mut Page, primary: Shape, reference: Shape)
    ensures { page.new.out.ghost_name ≡ page.old.out.ghost_name }
{
    start_labels(page);
    put_label(page, reference);
    put_label(page, primary);
    write!(page, "</g>\n");
}

// The map, pale, with the tinted tiles over it.
fn put_pale(page: &mut Page, card: &GoodCard, v: View, grid: Grid, set: u16)
    ensures { page.new.out.ghost_name ≡ page.old.out.ghost_name }
{
    put_filled(
        page,
        card,
        v,
        "<g stroke-linejoin='round' stroke='#9a9a9a' stroke-width='15' fill-opacity='0.3'>\n",
    );
    put_tints(page, grid, set);
    put_furniture(page, v);
}

// The whole picture of the primary p and the reference q, whose pair answer is a.
fn put_scene(page: &mut Page, card: &GoodCard, v: View, p: Field, q: Field, a: Answer)
    ensures { page.new.out.ghost_name ≡ page.old.out.ghost_name }
{
    let b = extent_of(q);
    let grid = Grid::new(v, b);
    let primary = shape_of(v, p);
    let reference = shape_of(v, q);
    put_opening(page, p.slot, q.slot, bottom(v) + 3400);
    put_pale(page, card, v, grid, a.first);
    put_two(page, primary, reference);
    put_lines(page, grid);
    put_cuts(page, v, p, b);
    put_names(page, grid);
    put_labels(page, primary, reference);
    put_answer(page, v, p.slot, q.slot, a);
    put_foot(page);
}

// Parcel j seen from parcel k.
pub fn put_sight(page: &mut Page, card: &GoodCard, j: usize, k: usize)
    requires { (j < parcel_count card.now.bytes.now) × (k < parcel_count card.now.bytes.now) }
    ensures { page.new.out.ghost_name ≡ page.old.out.ghost_name }
{
    let v = view_of(extent_of_card(card));
    let p = field_at(card, j);
    let q = field_at(card, k);
    put_scene(page, card, v, p, q, pair_in(card, j, k));
}
