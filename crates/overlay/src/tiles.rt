// The nine tiles of the reference's box across the map: its four lines, the tiles that the primary lies in, and their names.
ghost use Rattle.std.specs.Prelude.{◌≡◌, ◌≤◌, ◌<◌, max, slice_index};
ghost use Rattle.scale.specs.Places.{x_of, y_of};

use scale::view::{Extent, View, bottom, x_of, y_of};
use svg::Page;

// The lines between which the tiles lie, from west to east and from north to south: the frame's edge, the box's two lines, the frame's edge.
#[derive(Clone, Copy)]
pub struct Grid {
    pub columns: [u16; 4],
    pub rows: [u16; 4],
}

impl Grid {
    // The lines round the box b.
    pub fn new(v: View, b: Extent) -> Grid
        ensures columns { (slice_index result.columns 1 ≡ x_of v b.west) × (slice_index result.columns 2 ≡ x_of v b.east) }
        ensures rows { (slice_index result.rows 1 ≡ y_of v b.north) × (slice_index result.rows 2 ≡ y_of v b.south) }
    {
        let columns = [200, x_of(v, b.west), x_of(v, b.east), 9400];
        let rows = [200, y_of(v, b.north), y_of(v, b.south), bottom(v)];
        Grid { columns, rows }
    }

    fn tile(self, row: usize, column: usize) -> Frame
        requires { (row < 3) × (column < 3) }
    {
        let columns = self.columns;
        let rows = self.rows;
        let x = columns[column];
        let y = rows[row];
        Frame {
            x,
            y,
            width: columns[column + 1].saturating_sub(x),
            height: rows[row + 1].saturating_sub(y),
        }
    }
}

// A rectangle by its upper left corner and its size.
#[derive(Clone, Copy)]
struct Frame {
    x: u16,
    y: u16,
    width: u16,
    height: u16,
}

fn middle(a: u16, b: u16) -> u16
    ensures { result ≤ max a b }
{
    a + b.saturating_sub(a) / 2
}

// Two lines from top to bottom, and two from left to right.
pub fn put_lines(page: &mut Page, grid: Grid)
    ensures { page.new.out.ghost_name ≡ page.old.out.ghost_name }
{
    let [top, north, south, bottom] = grid.rows;
    let [_, west, east, _] = grid.columns;
    let height = bottom.saturating_sub(top);
    write!(
        page,
        "<g stroke='#0b3d91' stroke-width='25' stroke-dasharray='120 70'>\n\
        <path d='M{west} 200l0 {height}' />\n\
        <path d='M{east} 200l0 {height}' />\n\
        <path d='M200 {north}l9200 0' />\n\
        <path d='M200 {south}l9200 0' />\n\
        </g>\n"
    );
}

// The tiles of the set, whose bits are the tiles row by row.
pub fn put_tints(page: &mut Page, grid: Grid, set: u16)
    ensures { page.new.out.ghost_name ≡ page.old.out.ghost_name }
{
    write!(page, "<g fill='#e69f00' fill-opacity='0.2'>\n");
    for row in 0..3 {
        for column in 0..3 {
            if (set >> (3 * row + column)) % 2 == 1 {
                let Frame {
                    x,
                    y,
                    width,
                    height,
                } = grid.tile(row, column);
                write!(
                    page,
                    "<rect x='{x}' y='{y}' width='{width}' height='{height}' />\n"
                );
            }
        }
    }
    write!(page, "</g>\n");
}

// The names stand where the map has no parcel: along the frame.
pub fn put_names(page: &mut Page, grid: Grid)
    ensures { page.new.out.ghost_name ≡ page.old.out.ghost_name }
{
    let [_, west, east, _] = grid.columns;
    let [_, north, south, bottom] = grid.rows;
    let x = middle(west, east);
    let y = middle(north, south).saturating_add(100);
    let low = bottom.saturating_sub(160);
    write!(
        page,
        "<g fill='#0b3d91' font-size='300' font-weight='bold' text-anchor='middle' stroke='#ffffff' stroke-width='60' paint-order='stroke'>\n\
        <text x='520' y='510' >NW</text>\n\
        <text x='9080' y='510' >NE</text>\n\
        <text x='520' y='{low}' >SW</text>\n\
        <text x='9080' y='{low}' >SE</text>\n\
        <text x='{x}' y='510' >N</text>\n\
        <text x='520' y='{y}' >W</text>\n\
        <text x='9080' y='{y}' >E</text>\n\
        <text x='{x}' y='{low}' >S</text>\n"
    );
    put_box_name(page, grid.tile(1, 1), east);
}

// The name of the box itself, in its upper left corner, or beside its upper right corner where the box is small; with it the names end.
fn put_box_name(page: &mut Page, the_box: Frame, east: u16)
    ensures { page.new.out.ghost_name ≡ page.old.out.ghost_name }
{
    let Frame {
        x,
        y,
        width,
        height,
    } = the_box;
    if width < 900 || height < 900 {
        return put_name_beside(page, east, y);
    }
    let right = x.saturating_add(120);
    let below = y.saturating_add(330);
    write!(
        page,
        "<text x='{right}' y='{below}' text-anchor='start'>B</text>\n</g>\n"
    );
}

fn put_name_beside(page: &mut Page, x: u16, y: u16)
    ensures { page.new.out.ghost_name ≡ page.old.out.ghost_name }
{
    let right = x.saturating_add(210);
    let above = y.saturating_sub(90);
    write!(
        page,
        "<path d='M{x} {y}l190-120' stroke='#0b3d91' stroke-width='25'/>\n\
        <text x='{right}' y='{above}' text-anchor='start'>B</text>\n\
        </g>\n"
    );
}
