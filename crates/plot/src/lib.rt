// The parcels of a map, each a path of all its rings.
#![tactic(auto)]

ghost use Rattle.std.specs.Prelude.{◌≡◌, [], ◌∷◌, ◌++◌, ◌%◌};
ghost use Rattle.card.specs.Reading.{parcel_count};
ghost use Rattle.svg.specs.Ink.{InkedOn};
ghost use Rattle.plot.specs.Drawn.{path_start_text, path_end_text, fill_at, vertex_ink, ring_ink, rings_ink, parcel_ink, MapInk};

use contents::GoodCard;
use field::field_at;
use scale::shape::{Shape, Vertex, shape_of};
use scale::view::View;
use svg::Page;

// Eight fills that differ in lightness as well as in colour, so that slots that follow each other are told apart in grey too.
const FILLS: [[u8; 13]; 8] = [
    *b"fill='#f0e08a",
    *b"fill='#7db4d8",
    *b"fill='#f6c6a4",
    *b"fill='#8fbf8f",
    *b"fill='#d9d9e8",
    *b"fill='#d99a5b",
    *b"fill='#cdebe0",
    *b"fill='#c39bc9",
];

fn put_ring(page: &mut Page, ring: &[Vertex])
    ensures { InkedOn page.old (ring_ink ring.now) page.new }
{
    page.text(b"M");
    for v in ring {
        put_vertex(page, *v);
    }
    page.text(b"z");
}

fn put_vertex(page: &mut Page, v: Vertex)
    ensures { InkedOn page.old (vertex_ink v) page.new }
{
    page.number(v.x);
    page.text(b" ");
    page.number(v.y);
    page.text(b" ");
}

fn put_rings(page: &mut Page, s: Shape)
    ensures { InkedOn page.old (rings_ink s s.rings) page.new }
{
    for r in 0..s.rings {
        put_ring(page, s.ring(r));
    }
}

// The outline of a parcel; whoever calls writes its look and the end of the element.
fn put_path(page: &mut Page, s: Shape)
    ensures { InkedOn page.old (path_start_text ∷ (rings_ink s s.rings ++ (path_end_text ∷ []))) page.new }
{
    page.text(b"<path d='");
    put_rings(page, s);
    page.text(b"' ");
}

// A parcel with a look of its own, with which the element ends.
pub fn put_outline(page: &mut Page, s: Shape, look: &[u8])
    ensures { page.new.out.ghost_name ≡ page.old.out.ghost_name }
{
    put_path(page, s);
    page.text(look);
}

fn put_fill(page: &mut Page, slot: u16)
    ensures { InkedOn page.old (fill_at (slot % 8) ∷ []) page.new }
{
    page.text(&FILLS[usize::from(slot % 8)]);
}

// A parcel of the map, with the fill of its slot.
pub fn put_parcel(page: &mut Page, s: Shape)
    ensures { InkedOn page.old (parcel_ink s) page.new }
{
    put_path(page, s);
    put_fill(page, s.slot);
    page.text(b"' id='parcel-");
    page.number(s.slot);
    page.text(b"'/>\n");
}

// The parcels of a card in the order in which it has them, which is that of their slots.
pub fn put_parcels(page: &mut Page, card: &GoodCard, v: View)
    ensures same_buffer { page.new.out.ghost_name ≡ page.old.out.ghost_name }
    ensures map { MapInk v card.now.bytes.now (parcel_count card.now.bytes.now) page.old.out.now page.old.at page.new.at page.new.out.now }
{
    for k in 0..card.parcel_count() {
        let f = field_at(card, k);
        put_parcel(page, shape_of(v, f));
    }
}
