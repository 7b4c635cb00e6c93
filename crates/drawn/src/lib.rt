// The matrix straight from the edges, as it is drawn: lay the lines of both boxes over the plane, cut each edge by them, and mark the cells that it
// goes through; at the end the centre clause. Plain on purpose: no tile and no relation is asked for.
#![tactic(auto)]

ghost use Rattle.std.specs.Prelude.{◌≡◌, ◌*◌, ◌/◌, ◌%◌, ◌<◌, ◌≤◌, eqb};
ghost use Rattle.std.specs.Int.Bits.{bit_or};
ghost use Rattle.plane.specs.Placed.{BoxInPlaces, EdgeInPlaces};
ghost use Rattle.plane.specs.Folds.{any_to};
ghost use Rattle.plane.specs.Lists.{tab};
ghost use Rattle.plane.specs.Choice.{pick};
ghost use Rattle.plane.specs.TileSet.{one_if, set_of, bit};
ghost use Rattle.ring.specs.Edges.{ring_edge};
ghost use Rattle.region.specs.Outline.{drawn_by};
ghost use Rattle.region.specs.Refusals.{number};
ghost use Rattle.region.specs.Rules.{Keeps};
ghost use Rattle.relation.specs.Relation.{region_box};
ghost use Rattle.matrix.specs.Kept.{grid_of, cell_in};
ghost use Rattle.drawing.specs.Stays.{gap, stay_up, stay_down, counted, stay_of, overlaps, marks, StayFits};
ghost use Rattle.drawing.specs.Drawing.{same_box};
ghost use Rattle.drawn.specs.Drawn.{refused_with, drawn_with, matrix_in, drawn_for, drawn_of, drawn_words};
ghost use Rattle.drawn.specs.Steps.{row_stay, row_set, near, near_row, near_cell, edges_mark, ring_centre, region_centre, marked_by, is_marked, value_by};

use circuit::{Ring, equal_ends};
use drawing::Stay;
use matrix::{CELLS, GridLines, SizedMatrix, cell_at, grid_of, value_of};
use outline::{check_both, ring_of};
use plane::{Box, Edge};
use region::{Outline, RefusedRegion};
use relation::region_box;
use seen::covers_box;

// What one region marks: the cells by row, as a set of nine, that its edges mark, and whether the centre clause marks the other's box.
#[derive(Clone, Copy)]
struct Marked {
    cells: u16,
    centre: bool,
}

// How far q lies past p, at most n.
fn gap(p: u64, q: u64, n: u64) -> u64
    ensures { result ≡ gap p q n }
{
    q.saturating_sub(p).min(n)
}

// When an axis that runs up from a in n parts is between the lines lo and hi.
fn stay_up(a: u64, lo: u64, hi: u64, n: u64) -> Stay
    ensures { result ≡ stay_up a lo hi n }
{
    let from = gap(a, lo, n);
    let to = gap(a, hi, n);
    Stay { from, to, of: n }
}

// The same for one that runs down.
fn stay_down(a: u64, lo: u64, hi: u64, n: u64) -> Stay
    ensures { result ≡ stay_down a lo hi n }
{
    let from = gap(hi, a, n);
    let to = gap(lo, a, n);
    Stay { from, to, of: n }
}

// An edge that stands at a in this axis: does it count for the cell past a? On an outer line of its own region's box, p or q, it counts for the
// cell inside; else `up` tells which side is right of travel.
fn counted(p: u64, q: u64, a: u64, up: bool) -> bool
    ensures { result ≡ counted p q a up }
{
    if a == p {
        return true;
    }
    if a == q {
        return false;
    }
    up
}

// When the edge, from a to b in this axis, is between the lines lo and hi.
fn stay_of(a: u64, b: u64, lo: u64, hi: u64, up: bool) -> Stay
    ensures { result ≡ stay_of a b lo hi up }
{
    if a < b {
        return stay_up(a, lo, hi, b - a);
    }
    if b < a {
        return stay_down(a, lo, hi, a - b);
    }
    if up {
        return stay_up(a, lo, hi, 1);
    }
    stay_down(a, lo, hi, 1)
}

// Is there a moment that lies within both?
fn overlaps(s: Stay, t: Stay) -> bool
    requires { StayFits s × StayFits t }
    ensures { result ≡ overlaps s t }
{
    if s.to <= s.from {
        return false;
    }
    if t.to <= t.from {
        return false;
    }
    if t.to * s.of <= s.from * t.of {
        return false;
    }
    t.from * s.of < s.to * t.of
}

fn weight(t: bool, w: u16) -> u16
    ensures { (result ≡ one_if t * w) × (result ≤ w) }
{
    if t { w } else { 0 }
}

// The cells of one row that the edge marks, from the west 1, 2 and 4: while it is in the row it is in their column.
fn row_marks(up: Stay, west: Stay, middle: Stay, east: Stay) -> u16
    requires { StayFits up × StayFits west × StayFits middle × StayFits east }
    ensures { (result ≡ row_set up west middle east) × (result ≤ 7) }
{
    if up.to <= up.from {
        return 0;
    }
    weight(overlaps(west, up), 1) + weight(overlaps(middle, up), 2) + weight(overlaps(east, up), 4)
}

// Those of row i from the north.
fn marks_in_row(
    g: GridLines,
    e: Edge,
    above: bool,
    i: usize,
    west: Stay,
    middle: Stay,
    east: Stay,
) -> u16
    requires { (g.rows ≤ 3) × EdgeInPlaces e × StayFits west × StayFits middle × StayFits east }
    ensures { (result ≡ row_set (row_stay g e above i) west middle east) × (result ≤ 7) }
{
    let rows = g.rows as usize;
    if rows <= i {
        return 0;
    }
    let lines = g.up;
    let up = stay_of(e.ay, e.by, lines[rows - 1 - i], lines[rows - i], above);
    row_marks(up, west, middle, east)
}

// The cells of the grid that the edge, of a region with the box `own`, marks: the lines cut it, and its stays in the three columns and in the
// three rows tell which cells it goes through. Cell k by row is bit k.
fn edge_marks(own: Box, g: GridLines, e: Edge) -> u16
    requires { (g.rows ≤ 3) × EdgeInPlaces e }
    ensures { result ≡ set_of (λ c. marks own (cell_in g (c / 3) (c % 3)) e) 9 }
{
    if equal_ends(e) {
        return 0;
    }
    let past = counted(own.west, own.east, e.ax, e.ay < e.by);
    let above = counted(own.south, own.north, e.ay, e.bx < e.ax);
    let lines = g.across;
    let west = stay_of(e.ax, e.bx, lines[0], lines[1], past);
    let middle = stay_of(e.ax, e.bx, lines[1], lines[2], past);
    let east = stay_of(e.ax, e.bx, lines[2], lines[3], past);
    let top = marks_in_row(g, e, above, 0, west, middle, east);
    let centre = marks_in_row(g, e, above, 1, west, middle, east);
    let bottom = marks_in_row(g, e, above, 2, west, middle, east);
    top + 8 * centre + 64 * bottom
}

// Does the edge, from a to b in this axis, come near the strip between the lines lo and hi? Only then can it be between them.
fn near(a: u64, b: u64, lo: u64, hi: u64) -> bool
    ensures { result ≡ near a b lo hi }
{
    a.min(b) <= hi && lo <= a.max(b)
}

// Of row i from the north the cells in the columns, if the edge comes near the row.
fn near_in_row(g: GridLines, e: Edge, i: usize, columns: u16) -> u16
    requires { g.rows ≤ 3 }
    ensures { (result ≡ pick (near_row g e i) columns 0) × (result ≤ columns) }
{
    let rows = g.rows as usize;
    if rows <= i {
        return 0;
    }
    let lines = g.up;
    if near(e.ay, e.by, lines[rows - 1 - i], lines[rows - i]) {
        return columns;
    }
    0
}

// The cells near the edge.
fn near_cells(g: GridLines, e: Edge) -> u16
    requires { g.rows ≤ 3 }
    ensures { result ≡ set_of (near_cell g e) 9 }
{
    let lines = g.across;
    let west = weight(near(e.ax, e.bx, lines[0], lines[1]), 1);
    let middle = weight(near(e.ax, e.bx, lines[1], lines[2]), 2);
    let east = weight(near(e.ax, e.bx, lines[2], lines[3]), 4);
    let columns = west + middle + east;
    let top = near_in_row(g, e, 0, columns);
    let centre = near_in_row(g, e, 1, columns);
    let bottom = near_in_row(g, e, 2, columns);
    top + 8 * centre + 64 * bottom
}

// The marks with those of one edge more. Where all cells near the edge are marked already, it is not looked at.
fn with_edge(set: u16, own: Box, g: GridLines, e: Edge) -> u16
    requires { (g.rows ≤ 3) × EdgeInPlaces e × (set ≡ set_of (λ c. eqb (bit set c) 1) 9) }
    ensures { result ≡ bit_or set (set_of (λ c. marks own (cell_in g (c / 3) (c % 3)) e) 9) }
{
    if set | near_cells(g, e) == set {
        return set;
    }
    set | edge_marks(own, g, e)
}

fn ring_marks(own: Box, g: GridLines, ring: &Ring) -> u16
    requires { g.rows ≤ 3 }
    ensures { result ≡ set_of (λ c. any_to (λ i. marks own (cell_in g (c / 3) (c % 3)) (ring_edge ring.now.outline.now ring.now.from ring.now.size i)) ring.now.size) 9 }
{
    let mut set: u16 = 0;
    for k in 0..ring.size {
        set = with_edge(set, own, g, ring.edge(k));
    }
    set
}

// The cells that some edge of the region marks.
fn region_marks(own: Box, g: GridLines, outline: Outline) -> u16
    requires { (g.rows ≤ 3) × Keeps 4 (drawn_by outline) }
    ensures { result ≡ set_of (λ c. edges_mark own (cell_in g (c / 3) (c % 3)) (drawn_by outline.entry)) 9 }
{
    let mut set: u16 = 0;
    for r in 0..outline.ends.len() {
        set = set | ring_marks(own, g, &ring_of(outline, r));
    }
    set
}

// The centre clause: the ring covers the other's box, and encloses its centre.
#[tactic(auto, unfolding(crate::specs::Steps::ring_centre))]
fn ring_centre(other: Box, ring: &Ring) -> bool
    requires { BoxInPlaces other × (0 < ring.now.size) }
    ensures { result ≡ ring_centre other ring.now.outline.now ring.now.from ring.now.size }
{
    covers_box(ring.own_box(), other) && ring.encloses(other)
}

fn region_centre(other: Box, outline: Outline) -> bool
    requires { BoxInPlaces other × Keeps 4 (drawn_by outline) }
    ensures { result ≡ region_centre other (drawn_by outline.entry) }
{
    for r in 0..outline.ends.len() {
        if ring_centre(other, &ring_of(outline, r)) {
            return true;
        }
    }
    false
}

// What a region with the box `own` marks: cells by its edges, and the other's box by the centre clause.
fn region_drawn(own: Box, other: Box, g: GridLines, outline: Outline) -> Marked
    requires { (g.rows ≤ 3) × BoxInPlaces other × Keeps 4 (drawn_by outline) }
    ensures { result ≡ marked_by own other g (drawn_by outline.entry) }
{
    let cells = region_marks(own, g, outline);
    let centre = region_centre(other, outline);
    Marked { cells, centre }
}

fn same_box(k: Box, b: Box) -> bool
    ensures { result ≡ same_box k b }
{
    if k.west != b.west {
        return false;
    }
    if k.south != b.south {
        return false;
    }
    if k.east != b.east {
        return false;
    }
    k.north == b.north
}

// The cell, cell k by row, is marked: by an edge, or by the centre clause where it is the other's box.
fn is_marked(m: Marked, cell: Box, other: Box, k: usize) -> bool
    requires { k < 9 }
    ensures { result ≡ is_marked m cell other k }
{
    if (m.cells >> k) % 2 == 1 {
        return true;
    }
    if !m.centre {
        return false;
    }
    same_box(cell, other)
}

// 1 where the first region marks the cell, plus 2 where the second does; 0 past the size of the grid.
fn cell_drawn(g: GridLines, a: Box, b: Box, first: Marked, second: Marked, i: usize, j: usize) -> u8
    requires { (g ≡ grid_of a b) × (i < 3) × (j < 3) }
    ensures { result ≡ value_by a b first second i j }
{
    if g.rows as usize <= i {
        return 0;
    }
    if g.columns as usize <= j {
        return 0;
    }
    let cell = cell_at(g, i, j);
    let k = 3 * i + j;
    value_of(is_marked(first, cell, b, k), is_marked(second, cell, a, k))
}

fn cells_drawn(g: GridLines, a: Box, b: Box, first: Marked, second: Marked) -> [u8; 9]
    requires { g ≡ grid_of a b }
    ensures { result ≡ tab (λ c. value_by a b first second (c / 3) (c % 3)) 9 }
{
    let mut cells = [0u8; 9];
    for k in 0..CELLS {
        cells[k] = cell_drawn(g, a, b, first, second, k / 3, k % 3);
    }
    cells
}

// The answer for two regions that are known to be accepted.
pub fn matrix_drawn(first: Outline, second: Outline) -> SizedMatrix
    requires { Keeps 4 (drawn_by first) × Keeps 4 (drawn_by second) }
    ensures { drawn_with result ≡ drawn_for (region_box (drawn_by first.entry)) (region_box (drawn_by second.entry))
        (drawn_by first.entry) (drawn_by second.entry) }
{
    let a = region_box(first);
    let b = region_box(second);
    let g = grid_of(a, b);
    let one = region_drawn(a, b, g, first);
    let two = region_drawn(b, a, g, second);
    let cells = cells_drawn(g, a, b, one, two);
    SizedMatrix {
        rows: g.rows,
        columns: g.columns,
        cells,
    }
}

// The drawn matrix of two regions. The first region is checked wholly before the second (`check_both`, as in the pair call).
pub fn drawn_of(first: Outline, second: Outline) -> Result<SizedMatrix, RefusedRegion>
    ensures { matrix_in result ≡ drawn_of (drawn_by first.entry) (drawn_by second.entry) }
{
    check_both(first, second)?;
    Ok(matrix_drawn(first, second))
}

// The 14 numbers of an answer, a refusal's first three, then rows and columns, and the nine cells by row; where one is refused, all others are 0.
pub fn drawn_words(answer: Result<SizedMatrix, RefusedRegion>) -> [u16; 14]
    ensures { result ≡ drawn_words (matrix_in answer) }
{
    match answer {
        Ok(m) => matrix_words(m),
        Err(refused) => refused_words(refused),
    }
}

fn refused_words(refused: RefusedRegion) -> [u16; 14]
    ensures { result ≡ drawn_words (refused_with (number refused.broken.rule) refused.region refused.broken.ring) }
{
    let mut words = [0u16; 14];
    words[0] = refused.broken.rule.into();
    words[1] = refused.region;
    words[2] = refused.broken.ring;
    words
}

fn matrix_words(m: SizedMatrix) -> [u16; 14]
    ensures { result ≡ drawn_words (drawn_with m) }
{
    let cells = m.cells;
    [
        0,
        0,
        0,
        m.rows,
        m.columns,
        cells[0] as u16,
        cells[1] as u16,
        cells[2] as u16,
        cells[3] as u16,
        cells[4] as u16,
        cells[5] as u16,
        cells[6] as u16,
        cells[7] as u16,
        cells[8] as u16,
    ]
}
