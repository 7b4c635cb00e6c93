// Two boxes and the two relations between their regions: the grid of both boxes' lines, the objects interaction matrix.
#![tactic(auto)]

ghost use Rattle.std.specs.Prelude.{◌≡◌, ◌+◌, ◌*◌, ◌≤◌, ◌<◌};
ghost use Rattle.plane.specs.Lists.{tab};
ghost use Rattle.plane.specs.TileSet.{one_if};
ghost use Rattle.matrix.specs.Holding.{range_of, holds};
ghost use Rattle.matrix.specs.Kept.{grid_of, cell_in, rectangle_of};
ghost use Rattle.matrix.specs.Matrix.{cell_value, matrix_of, flat_of};

use axis::lines_of;
use plane::Box;

mod axis;

// The values of a cell that holds only the first region, only the second, or both: the document's own numbers, which stand in a matrix.
pub const FIRST: u8 = 1;

pub const SECOND: u8 = 2;

pub const BOTH: u8 = 3;

// The cells of a matrix, counted by row.
pub const CELLS: usize = 9;

// The distinct lines of one axis in rising order; the places past the count are 0. Memory is fixed, so there are four places and a count.
#[derive(Clone, Copy)]
pub struct Rising {
    pub count: usize,
    pub at: [u64; 4],
}

// The grid of two boxes: the matrix's size, the lines from the south and the lines from the west.
#[derive(Clone, Copy)]
pub struct GridLines {
    pub rows: u16,
    pub columns: u16,
    pub up: [u64; 4],
    pub across: [u64; 4],
}

pub fn grid_of(a: Box, b: Box) -> GridLines
    ensures { result ≡ grid_of a b }
{
    let y = lines_of(a.south, a.north, b.south, b.north);
    let x = lines_of(a.west, a.east, b.west, b.east);
    let up = y.at;
    let across = x.at;
    GridLines {
        rows: (y.count - 1) as u16,
        columns: (x.count - 1) as u16,
        up,
        across,
    }
}

// The cell in row i from the north and column j from the west.
pub fn cell_at(g: GridLines, i: usize, j: usize) -> Box
    requires { (i < g.rows) × (g.rows ≤ 3) × (j < 3) }
    ensures { result ≡ cell_in g i j }
{
    let rows = g.rows as usize;
    let up = g.up;
    let across = g.across;
    Box {
        west: across[j],
        south: up[rows - 1 - i],
        east: across[j + 1],
        north: up[rows - i],
    }
}

// The range of the lines lo and hi just after p.
fn range_of(lo: u64, hi: u64, p: u64) -> u16
    ensures { (result ≡ range_of lo hi p) × (result ≤ 2) }
{
    u16::from(lo <= p) + u16::from(hi <= p)
}

// The cell holds the region with box a: it lies inside a, and the tile of b that contains it is in the relation.
fn holds_region(a: Box, b: Box, relation: u16, cell: Box) -> bool
    ensures { result ≡ holds a b relation (rectangle_of cell) }
{
    if cell.west < a.west {
        return false;
    }
    if a.east < cell.east {
        return false;
    }
    if cell.south < a.south {
        return false;
    }
    if a.north < cell.north {
        return false;
    }
    let row = 2 - range_of(b.south, b.north, cell.south);
    let column = range_of(b.west, b.east, cell.west);
    (relation >> (3 * row + column)) % 2 == 1
}

// 1 for the first region, plus 2 for the second.
pub fn value_of(first: bool, second: bool) -> u8
    ensures { result ≡ one_if first + 2 * one_if second }
{
    FIRST * u8::from(first) + SECOND * u8::from(second)
}

// The matrix with its size, its cells by row; those past its size are 0.
#[derive(Clone, Copy, PartialEq, Eq)]
pub struct SizedMatrix {
    pub rows: u16,
    pub columns: u16,
    pub cells: [u8; 9],
}

// Two boxes with their grid, and the relation of each region to the other's box.
#[derive(Clone, Copy)]
struct Regions {
    grid: GridLines,
    a: Box,
    b: Box,
    of_a: u16,
    of_b: u16,
    ghost gridded: { grid ≡ grid_of a b },
}

impl Regions {
    fn cell_value(self, i: usize, j: usize) -> u8
        ensures { result ≡ cell_value self.a self.b self.of_a self.of_b i j }
    {
        let g = self.grid;
        if g.rows as usize <= i {
            return 0;
        }
        if g.columns as usize <= j {
            return 0;
        }
        let cell = cell_at(g, i, j);
        value_of(
            holds_region(self.a, self.b, self.of_a, cell),
            holds_region(self.b, self.a, self.of_b, cell),
        )
    }

    fn row(self, i: usize) -> [u8; 3]
        ensures { result ≡ tab (λ j. cell_value self.a self.b self.of_a self.of_b i j) 3 }
    {
        [
            self.cell_value(i, 0),
            self.cell_value(i, 1),
            self.cell_value(i, 2),
        ]
    }

    fn matrix(self) -> [[u8; 3]; 3]
        ensures { result ≡ matrix_of self.a self.b self.of_a self.of_b }
    {
        [self.row(0), self.row(1), self.row(2)]
    }
}

// The matrix of two regions: a's box and its relation r to b's, b's box and its relation s to a's.
pub fn matrix_of(g: GridLines, a: Box, b: Box, r: u16, s: u16) -> [[u8; 3]; 3]
    requires { g ≡ grid_of a b }
    ensures { result ≡ matrix_of a b r s }
{
    let regions = Regions {
        grid: g,
        a,
        b,
        of_a: r,
        of_b: s,
    };
    regions.matrix()
}

// The nine values by row.
pub fn flat_of(m: [[u8; 3]; 3]) -> [u8; 9]
    ensures { result ≡ flat_of m }
{
    let mut cells = [0u8; 9];
    for k in 0..CELLS {
        cells[k] = m[k / 3][k % 3];
    }
    cells
}
