// What one ring shows a box: its tiles by all three clauses, and its pieces.
#![tactic(auto)]

ghost use Rattle.std.specs.Prelude.{◌≡◌, true, ◌+◌, ◌≤◌, ◌<◌, length};
ghost use Rattle.plane.specs.Placed.{BoxInPlaces, Upright};
ghost use Rattle.edge.specs.Drawn.{drawn};
ghost use Rattle.classes.specs.Classes.{list_by};
ghost use Rattle.ring.specs.Edges.{ring_edge};
ghost use Rattle.ring.specs.RingBox.{stretch_box, covers};
ghost use Rattle.seen.specs.Pass.{block, edge_to, classing_box, corner_class, Classes, seen_to};
ghost use Rattle.seen.specs.RingSeen.{edges_seen, ring_seen};

use circuit::{Ring, equal_ends};
use classes::{vertex_class, walk_told};
use edge::{Walk, walk_edge};
use plane::Box;

// What a ring or a region shows a box: the set of the tiles that it has, and into how many pieces the box's lines cut its edges.
#[derive(Clone, Copy)]
pub struct Seen {
    pub set: u16,
    pub pieces: u16,
}

// ---- The pass over a ring's edges. Turn k looks at the edge that ends in vertex k, so the last edge comes first. The vertices are classed
// first, a block of them at a time, then the edges of the block are looked up by their classes; few have to be walked.

// How many vertices are classed at a time.
const BLOCK: usize = 64;

// The edge that ends in vertex k, which is the vertex that it starts from.
fn edge_to(n: usize, k: usize) -> usize
    requires { 0 < n }
    ensures { result ≡ edge_to n k }
{
    if k == 0 {
        return n - 1;
    }
    k - 1
}

// The box against which the vertices are classed. By its classes an edge with equal ends shows the tile of its vertex, which is right
// for the ring: some edge leaves that vertex, and has the tile. But none does in a ring of one point. So where the first edge has equal
// ends, the vertices are classed against a box without inside, and every edge is walked.
#[tactic(auto, unfolding(crate::specs::Pass::classing_box))]
fn classing_box(b: Box, ring: &Ring) -> Box
    requires { 0 < ring.now.size }
    ensures { result ≡ classing_box b ring.now.outline.now ring.now.from ring.now.size }
{
    if equal_ends(ring.edge(0)) {
        return Box {
            west: 0,
            south: 0,
            east: 0,
            north: 0,
        };
    }
    b
}

// One pass: the box b, the box against which the vertices are classed, and the ring.
#[derive(Clone, Copy)]
struct RingPass<'a> {
    b: Box,
    classing: Box,
    ring: Ring<'a>,
    ghost placed: { BoxInPlaces b },
    ghost upright: { Upright b },
    ghost some: { 0 < ring.size },
    ghost against: { classing ≡ classing_box b ring.outline.now ring.from ring.size },
}

impl<'a> RingPass<'a> {
    fn corner_class(&self, k: usize) -> u32
        requires { k < self.now.ring.size }
        ensures { let r = self.now.ring in result ≡ corner_class self.now.classing r.outline.now r.from k }
    {
        vertex_class(self.classing, self.ring.x_of(k), self.ring.y_of(k))
    }

    // The classes of the vertices from vertex `at` on, one for each place of the list.
    fn lay_classes(&self, at: usize, to: &mut [u32])
        requires { at + length to.old ≤ self.now.ring.size }
        ensures { let r = self.now.ring in Classes self.now.classing r.outline.now r.from at (length to.old) to.new }
    {
        for (k, class) in to.iter_mut().enumerate() {
            *class = self.corner_class(at + k);
        }
    }

    // The edge that ends in vertex k, by the classes of its ends; walked where they leave it open.
    fn walk_into(&self, k: usize, first: u32, last: u32) -> Walk
        requires { (k < self.now.ring.size) × (first ≤ 24) × (last ≤ 24) }
        ensures { let r = self.now.ring in result ≡ drawn (list_by self.now.b first last (ring_edge r.outline.now r.from r.size (edge_to r.size k))) }
    {
        match walk_told(first, last) {
            Some(w) => w,
            None => walk_edge(self.b, self.ring.edge(edge_to(self.ring.size, k))),
        }
    }

    // The edges that end in the vertices from vertex `at` on whose classes are listed, after what the edges before them have shown. `first` is
    // the class of the vertex from which the first of them starts.
    fn classed_seen(&self, at: usize, first: u32, classes: &[u32], shown: Seen) -> Seen
        requires listed { let r = self.now.ring in (at + length classes.now ≤ r.size) × Classes self.now.classing r.outline.now r.from at (length classes.now) classes.now }
        requires before { let r = self.now.ring in (first ≡ corner_class self.now.classing r.outline.now r.from (edge_to r.size at)) × (shown ≡ seen_to self.now.b r.outline.now r.from r.size at) }
        ensures { let r = self.now.ring in result ≡ seen_to self.now.b r.outline.now r.from r.size (at + length classes.now) }
    {
        let mut set = shown.set as u64;
        let mut pieces = shown.pieces as u64;
        let mut start = first;
        for (k, class) in classes.iter().enumerate() {
            let end = *class;
            let w = self.walk_into(at + k, start, end);
            set = set | w.set;
            pieces += w.pieces;
            start = end;
        }
        Seen {
            set: set as u16,
            pieces: pieces as u16,
        }
    }

    // The same for the m edges of one block, whose classes are laid out here.
    fn block_seen(&self, at: usize, m: usize, shown: Seen) -> Seen
        requires { let r = self.now.ring in (at < r.size) × (at + m ≤ r.size) × (m ≤ block) × (shown ≡ seen_to self.now.b r.outline.now r.from r.size at) }
        ensures { let r = self.now.ring in result ≡ seen_to self.now.b r.outline.now r.from r.size (at + m) }
    {
        let mut room = [0u32; BLOCK];
        let classes = &mut room[..m];
        self.lay_classes(at, classes);
        let first = self.corner_class(edge_to(self.ring.size, at));
        self.classed_seen(at, first, classes, shown)
    }
}

// The tiles and the pieces of the ring's edges. The while: it moves on by a block, and the last block is what remains.
fn edges_seen(b: Box, ring: &Ring) -> Seen
    requires { BoxInPlaces b × Upright b × (0 < ring.now.size) }
    ensures { result ≡ edges_seen b ring.now.outline.now ring.now.from ring.now.size }
{
    let pass = RingPass {
        b,
        classing: classing_box(b, ring),
        ring: *ring,
    };
    let mut s = Seen { set: 0, pieces: 0 };
    let mut at: usize = 0;
    while at < ring.size {
        let m = (ring.size - at).min(BLOCK);
        s = pass.block_seen(at, m, s);
        at += m;
    }
    s
}

// Does the box a cover the box b?
#[tactic(auto, unfolding(ring::specs::RingBox::covers))]
pub fn covers_box(a: Box, b: Box) -> bool
    ensures { result ≡ covers a b }
{
    a.west <= b.west && a.south <= b.south && b.east <= a.east && b.north <= a.north
}

// The ring's tiles by all three clauses, and its pieces. The centre is looked at only where no edge has B. `own` is a box that covers the
// ring's own, such as its region's: where it does not cover b, the ring's own does not either, and need not be found.
pub fn ring_seen(b: Box, own: Box, ring: &Ring) -> Seen
    requires { BoxInPlaces b × Upright b × (0 < ring.now.size) × (covers own (stretch_box ring.now.outline.now ring.now.from ring.now.size) ≡ true) }
    ensures { result ≡ ring_seen b ring.now.outline.now ring.now.from ring.now.size }
{
    let s = edges_seen(b, ring);
    if (s.set >> 4) % 2 == 1 {
        return s;
    }
    if !covers_box(own, b) {
        return s;
    }
    if !covers_box(ring.own_box(), b) {
        return s;
    }
    if !ring.encloses(b) {
        return s;
    }
    Seen {
        set: s.set | 16,
        pieces: s.pieces,
    }
}
