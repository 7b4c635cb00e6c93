// What is said below the map: tiles and directions in words as the list has them, pieces, the matrix, and "around" where it is.
#![tactic(auto)]

ghost use Rattle.std.specs.Prelude.{◌≡◌};

use around::around;
use names::{DIRECTIONS_MIDDLE, TILES_MIDDLE, put_set};
use pair::Answer;
use scale::view::{View, bottom};
use svg::Page;

// The longest set in words, and the space behind it.
const WORDS_ROOM: usize = 28;

// By the value of a cell: white, the colour of one parcel, of the other, or what both make together.
const GROUNDS: [&str; 4] = ["ffffff", "f3d08a", "abd9f4", "c9b98a"];

fn put_words_of(page: &mut Page, middle: u8, set: u16)
    ensures { page.new.out.ghost_name ≡ page.old.out.ghost_name }
{
    let mut words = [0u8; WORDS_ROOM];
    let end = put_set(&mut words, 0, middle, set);
    page.text(&words[..end]);
}

// Four lines: the two parcels, tiles, directions and pieces.
fn put_relation(page: &mut Page, v: View, primary: u16, reference: u16, a: Answer)
    ensures { page.new.out.ghost_name ≡ page.old.out.ghost_name }
{
    let y = bottom(v);
    let heading = y + 1250;
    let tiles = y + 1780;
    let directions = y + 2200;
    let pieces = y + 2620;
    let count = a.first_pieces;
    write!(
        page,
        "<text x='200' y='{heading}' font-size='340' font-weight='bold'>Parcel {primary} seen from parcel {reference}</text>\n\
        <text x='200' y='{tiles}' >Tiles: "
    );
    put_words_of(page, TILES_MIDDLE, a.first);
    write!(
        page,
        "</text>\n<text x='200' y='{directions}' >Directions: "
    );
    put_words_of(page, DIRECTIONS_MIDDLE, a.directions);
    write!(
        page,
        "</text>\n<text x='200' y='{pieces}' >Pieces: {count}</text>\n"
    );
}

fn put_around(page: &mut Page, y: u16, primary: u16, reference: u16)
    ensures { page.new.out.ghost_name ≡ page.old.out.ghost_name }
{
    write!(
        page,
        "<text x='200' y='{y}' font-weight='bold'>Parcel {primary} lies around parcel {reference}</text>\n"
    );
}

// A cell of the matrix with its value in the middle.
fn put_value(page: &mut Page, x: u16, y: u16, value: u8)
    ensures { page.new.out.ghost_name ≡ page.old.out.ghost_name }
{
    let ground = GROUNDS.get(usize::from(value)).copied().unwrap_or("");
    let middle = x.saturating_add(280);
    let below = y.saturating_add(385);
    write!(
        page,
        "<rect x='{x}' y='{y}' width='560' height='560' fill='#{ground}'/>\n\
        <text x='{middle}' y='{below}' text-anchor='middle' font-size='300' stroke='none'>{value}</text>\n"
    );
}

// The cells of the matrix's own rows and columns.
fn put_matrix(page: &mut Page, y: u16, a: Answer)
    ensures { page.new.out.ghost_name ≡ page.old.out.ghost_name }
{
    write!(page, "<g stroke='#555555' stroke-width='15'>\n");
    for row in 0..a.matrix.rows.min(3) {
        for column in 0..a.matrix.columns.min(3) {
            let cells = a.matrix.cells;
            put_value(
                page,
                6900 + 560 * column,
                y.saturating_add(560 * row),
                cells[usize::from(3 * row + column)],
            );
        }
    }
    write!(page, "</g>\n");
}

// What the values of the matrix stand for.
fn put_legend(page: &mut Page, y: u16, primary: u16, reference: u16)
    ensures { page.new.out.ghost_name ≡ page.old.out.ghost_name }
{
    write!(
        page,
        "<text x='7740' y='{y}' text-anchor='middle' font-size='240'>1: parcel {primary}, 2: parcel {reference}, 3: both</text>\n"
    );
}

// The two slots are no struct: each is a number of its own in the texts, and every function would take the struct apart first.
pub fn put_answer(page: &mut Page, v: View, primary: u16, reference: u16, a: Answer)
    ensures { page.new.out.ghost_name ≡ page.old.out.ghost_name }
{
    let y = bottom(v);
    put_relation(page, v, primary, reference, a);
    if around(Ok(a)) {
        put_around(page, y + 3040, primary, reference);
    }
    put_matrix(page, y + 980, a);
    put_legend(page, y + 3040, primary, reference);
}
