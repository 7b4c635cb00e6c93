// One ring, a stretch of a list of coordinates: its vertices and edges, its box, and whether it encloses a box's centre. Rules 5 to 7 are
// asked in `simple`, its tiles and pieces in `seen`.
#![tactic(auto)]

ghost use Rattle.std.specs.Prelude.{◌≡◌, ◌+◌, ◌≤◌, ◌<◌};
ghost use Rattle.plane.specs.Place.{place_of};
ghost use Rattle.plane.specs.Points.{vertex};
ghost use Rattle.plane.specs.Placed.{EdgeInPlaces, BoxInPlaces};
ghost use Rattle.ring.specs.Edges.{next_of, corner, ring_edge};
ghost use Rattle.ring.specs.Stretch.{Readable, Stretch};
ghost use Rattle.ring.specs.RingBox.{stretch_box};
ghost use Rattle.ring.specs.Repeated.{equal_ends};
ghost use Rattle.ring.specs.Enclosed.{crosses_at, encloses};

use meet::{leftward, rightward};
use plane::{Box, Edge, place_at, place_of};

// The coordinates of vertex i of a list.
pub fn x_of(xs: &[i32], i: usize) -> i32
    requires { Readable xs.now i }
    ensures { result ≡ (vertex xs.now i).x }
{
    xs[2 * i]
}

pub fn y_of(xs: &[i32], i: usize) -> i32
    requires { Readable xs.now i }
    ensures { result ≡ (vertex xs.now i).y }
{
    xs[2 * i + 1]
}

// The vertex after vertex k of a ring of n from vertex `from` on: the last joins the first.
#[tactic(auto, unfolding(ring::specs::Edges::next_of))]
pub fn next_of(from: usize, n: usize, k: usize) -> usize
    requires { (k < n) × (from + n ≤ 2048) }
    ensures { result ≡ next_of from n k }
{
    if k + 1 == n {
        return from;
    }
    from + k + 1
}

// The ring of `size` vertices from vertex `from` on in an outline's coordinates, which a pass may read: they stand there, in range.
#[derive(Clone, Copy)]
pub struct Ring<'a> {
    pub outline: &'a [i32],
    pub from: usize,
    pub size: usize,
    pub ghost stretch: { Stretch outline.now from size },
}

impl<'a> Ring<'a> {
    // The coordinates of its vertex k.
    pub fn x_of(&self, k: usize) -> i32
        requires { k < self.now.size }
        ensures { result ≡ (corner self.now.outline.now self.now.from k).x }
    {
        x_of(self.outline, self.from + k)
    }

    pub fn y_of(&self, k: usize) -> i32
        requires { k < self.now.size }
        ensures { result ≡ (corner self.now.outline.now self.now.from k).y }
    {
        y_of(self.outline, self.from + k)
    }

    // Which vertex of the outline comes after its vertex k.
    pub fn next_of(&self, k: usize) -> usize
        requires { k < self.now.size }
        ensures { result ≡ next_of self.now.from self.now.size k }
    {
        next_of(self.from, self.size, k)
    }

    #[tactic(auto, using(ring::proofs::Stretch::corner_readable), unfolding(ring::specs::Edges::ring_edge))]
    pub fn edge(&self, k: usize) -> Edge
        requires { k < self.now.size }
        ensures { result ≡ ring_edge self.now.outline.now self.now.from self.now.size k }
    {
        let next = self.next_of(k);
        let ax = self.x_at(self.from + k);
        let ay = self.y_at(self.from + k);
        let bx = self.x_at(next);
        let by = self.y_at(next);
        Edge { ax, ay, bx, by }
    }

    // The places of vertex i of the outline, one of the ring's.
    fn x_at(&self, i: usize) -> u64
        requires { Readable self.now.outline.now i }
        ensures { result ≡ place_of (vertex self.now.outline.now i).x }
    {
        place_at(self.outline, 2 * i)
    }

    fn y_at(&self, i: usize) -> u64
        requires { Readable self.now.outline.now i }
        ensures { result ≡ place_of (vertex self.now.outline.now i).y }
    {
        place_at(self.outline, 2 * i + 1)
    }

    // The box round it. The coordinates are compared as they stand, so that the compiler compares four at a time; only the four lines are
    // made places.
    pub fn own_box(&self) -> Box
        requires { 0 < self.now.size }
        ensures { result ≡ stretch_box self.now.outline.now self.now.from self.now.size }
    {
        let mut west = self.x_of(0);
        let mut south = self.y_of(0);
        let mut east = west;
        let mut north = south;
        for k in 1..self.size {
            let x = self.x_of(k);
            let y = self.y_of(k);
            west = west.min(x);
            south = south.min(y);
            east = east.max(x);
            north = north.max(y);
        }
        Box {
            west: place_of(west),
            south: place_of(south),
            east: place_of(east),
            north: place_of(north),
        }
    }

    // Does it enclose the box's centre?
    pub fn encloses(&self, b: Box) -> bool
        requires { BoxInPlaces b }
        ensures { result ≡ encloses b self.now.outline.now self.now.from self.now.size }
    {
        let mut crossing: u64 = 0;
        for k in 0..self.size {
            if crosses_ray(b, self.edge(k)) {
                crossing += 1;
            }
        }
        crossing % 2 == 1
    }
}

// Are the edge's ends one point?
#[tactic(auto, unfolding(ring::specs::Repeated::equal_ends))]
pub fn equal_ends(g: Edge) -> bool
    ensures { result ≡ equal_ends g }
{
    g.ax == g.bx && g.ay == g.by
}

// Does the edge cross the ray strictly east of the box's centre? Everything is doubled with the centre; the products are asked only
// of an edge whose ends lie on both sides of the ray's height.
#[tactic(auto, unfolding(ring::specs::Enclosed::crosses_at, ring::specs::Enclosed::eastward))]
fn crosses_ray(b: Box, g: Edge) -> bool
    requires { BoxInPlaces b × EdgeInPlaces g }
    ensures { result ≡ crosses_at 2 (b.west + b.east) (b.south + b.north) g }
{
    let px = b.west + b.east;
    let py = b.south + b.north;
    let doubled = Edge {
        ax: 2 * g.ax,
        ay: 2 * g.ay,
        bx: 2 * g.bx,
        by: 2 * g.by,
    };
    if doubled.ay <= py {
        if doubled.by <= py {
            return false;
        }
        return rightward(doubled, px, py) < leftward(doubled, px, py);
    }
    if py < doubled.by {
        return false;
    }
    leftward(doubled, px, py) < rightward(doubled, px, py)
}
