// One ring against rules 5, 6 and 7: one pass over its edges for repeated vertices, folds and the turning sense, and a search for
// edges that meet. Few pairs of edges come near each other, so the search is for those few: in a small ring by the edges' ranges
// laid out once, in a larger one by bands. Only they are asked, with products, whether they share a point.
#![tactic(auto)]

ghost use Rattle.std.specs.Prelude.{◌≡◌, ◌+◌, ◌≤◌, ◌<◌};
ghost use Rattle.plane.specs.Placed.{EdgeInPlaces};
ghost use Rattle.meet.specs.MeetTest.{shares};
ghost use Rattle.meet.specs.Signs.{product_of};
ghost use Rattle.ring.specs.Edges.{ring_edge};
ghost use Rattle.bands.specs.Axis.{number_of};
ghost use Rattle.bands.specs.Bands.{most_edges, Laid};
ghost use Rattle.simple.specs.Faults.{faults_of};
ghost use Rattle.simple.specs.Parts.{edge_before, past_strangers, meet_pair, meets_with, meets, scan_of, Candidates};
ghost use Rattle.simple.specs.Layout.{small, LaidOut, ranges_apart};

use bands::{Axis, Bands, place_in};
use circuit::{Ring, equal_ends};
use meet::{in_line, product, shares, turns_back};
use plane::{Edge, place_at};

// Up to so many vertices the edges' ranges are laid out one by one: bands would cost more than they save.
const SMALL: usize = 16;

// Which of the rules 5, 6 and 7 the ring breaks: flags, as it may break any of them, or all.
#[derive(Clone, Copy)]
pub struct Faults {
    pub repeated: bool,
    pub tangled: bool,
    pub turned: bool,
}

// What one pass over the edges tells: rules 5 and 7, and the folds of rule 6. Flags, as in `Faults`.
#[derive(Clone, Copy)]
struct Scan {
    repeated: bool,
    folded: bool,
    turned: bool,
}

// Twice what the edge adds to the area on one side of the ring.
fn turn_of(h: Edge) -> i64
    requires { EdgeInPlaces h }
    ensures { result ≡ product_of (h.ax + h.bx) 0 h.by h.ay }
{
    product(h.ax + h.bx, 0, h.by, h.ay)
}

// Edge k, where g is the edge before it: only its end is read.
fn edge_after(ring: Ring, k: usize, g: Edge) -> Edge
    requires { (k < ring.size) × (g ≡ ring_edge ring.outline.now ring.from ring.size (edge_before ring.size k)) }
    ensures { result ≡ ring_edge ring.entry.outline.now ring.entry.from ring.entry.size k }
{
    let next = ring.next_of(k);
    let bx = place_at(ring.outline, 2 * next);
    let by = place_at(ring.outline, 2 * next + 1);
    Edge {
        ax: g.bx,
        ay: g.by,
        bx,
        by,
    }
}

fn ring_scan(ring: Ring) -> Scan
    requires { 0 < ring.size }
    ensures { result ≡ scan_of ring.entry.outline.now ring.entry.from ring.entry.size }
{
    let mut g = ring.edge(ring.size - 1);
    let mut repeated = false;
    let mut folded = false;
    let mut sum: i64 = 0;
    for k in 0..ring.size {
        let h = edge_after(ring, k, g);
        if in_line(g, h) {
            repeated |= equal_ends(h);
            folded |= turns_back(g, h);
        }
        sum += turn_of(h);
        g = h;
    }
    Scan {
        repeated,
        folded,
        turned: 0 <= sum,
    }
}

// Does edge j of the ring share a point with g? One function for all who ask: made part of each, a ring of 16
// vertices takes a sixth more instructions.
fn shares_with(g: Edge, ring: Ring, j: usize) -> bool
    requires { EdgeInPlaces g × (j < ring.size) }
    ensures { result ≡ shares g (ring_edge ring.entry.outline.now ring.entry.from ring.entry.size j) }
{
    shares(g, ring.edge(j))
}

// A ring of four has two pairs of strangers.
fn four_meets(ring: Ring) -> bool
    requires { ring.size ≡ 4 }
    ensures { result ≡ meets ring.entry.outline.now ring.entry.from ring.entry.size }
{
    if shares_with(ring.edge(0), ring, 2) {
        return true;
    }
    shares_with(ring.edge(1), ring, 3)
}

// ---- A small ring: the range of each edge laid out in each axis.

// The ranges of the edges in one axis. Arrays, as there is no heap; two and not one of pairs, and filled in place: pairs take 6 % more
// instructions for a ring of 16 vertices, and to return them more still.
#[derive(Drop)]
struct Ranges {
    lows: [u32; SMALL],
    highs: [u32; SMALL],
}

impl Ranges {
    const EMPTY: Self = Ranges {
        lows: [0; SMALL],
        highs: [0; SMALL],
    };

    // Do the ranges of edges i and j lie apart?
    fn apart(&self, i: usize, j: usize) -> bool
        requires { (i < small) × (j < small) }
        ensures { result ≡ ranges_apart self.now.lows self.now.highs i j }
    {
        self.highs[i] < self.lows[j] || self.highs[j] < self.lows[i]
    }
}

fn lay_out(ring: Ring, axis: Axis, ranges: &mut Ranges)
    requires { ring.size ≤ small }
    ensures { LaidOut ring.entry.outline.now ring.entry.from ring.entry.size (number_of axis) ranges.new.lows ranges.new.highs }
{
    for k in 0..ring.size {
        let a = place_in(ring.outline, ring.from + k, axis);
        let b = place_in(ring.outline, ring.next_of(k), axis);
        ranges.lows[k] = a.min(b);
        ranges.highs[k] = a.max(b);
    }
}

// A small ring and the ranges of its edges.
#[derive(Clone, Copy)]
struct SmallRing<'a> {
    ring: Ring<'a>,
    x: &'a Ranges,
    y: &'a Ranges,
    ghost few: { ring.size ≤ small },
    ghost in_x: { LaidOut ring.outline.now ring.from ring.size 0 x.now.lows x.now.highs },
    ghost in_y: { LaidOut ring.outline.now ring.from ring.size 1 y.now.lows y.now.highs },
}

// Past the last stranger of edge i of a ring of n. The ring's last edge is a neighbour of its first.
fn past_strangers(n: usize, i: usize) -> usize
    requires { 0 < n }
    ensures { result ≡ past_strangers n i }
{
    if i == 0 {
        return n - 1;
    }
    n
}

impl<'a> SmallRing<'a> {
    // Edges i and j: their ranges answer for most pairs.
    fn near_edges_share(&self, i: usize, j: usize) -> bool
        requires { (i < self.now.ring.size) × (j < self.now.ring.size) }
        ensures { result ≡ shares (ring_edge self.now.ring.outline.now self.now.ring.from self.now.ring.size i) (ring_edge self.now.ring.outline.now self.now.ring.from self.now.ring.size j) }
    {
        if self.x.apart(i, j) {
            return false;
        }
        if self.y.apart(i, j) {
            return false;
        }
        shares_with(self.ring.edge(i), self.ring, j)
    }

    fn meets_with(&self, i: usize) -> bool
        requires { i + 2 < self.now.ring.size }
        ensures { result ≡ meets_with self.now.ring.outline.now self.now.ring.from self.now.ring.size i }
    {
        for j in i + 2..past_strangers(self.ring.size, i) {
            if self.near_edges_share(i, j) {
                return true;
            }
        }
        false
    }

    fn meets(&self) -> bool
        requires { 2 ≤ self.now.ring.size }
        ensures { result ≡ meets self.now.ring.outline.now self.now.ring.from self.now.ring.size }
    {
        for i in 0..self.ring.size - 2 {
            if self.meets_with(i) {
                return true;
            }
        }
        false
    }
}

fn small_meets(ring: Ring) -> bool
    requires { (2 ≤ ring.size) × (ring.size ≤ small) }
    ensures { result ≡ meets ring.entry.outline.now ring.entry.from ring.entry.size }
{
    let mut x = Ranges::EMPTY;
    let mut y = Ranges::EMPTY;
    lay_out(ring, Axis::X, &mut x);
    lay_out(ring, Axis::Y, &mut y);
    let laid_out = SmallRing { ring, x: &x, y: &y };
    laid_out.meets()
}

// ---- A larger ring: the edges near edge i come as the bits of a word.

fn pair_meets(g: Edge, ring: Ring, i: usize, j: usize) -> bool
    requires { (i + 1 < j) × (j < ring.size) × (g ≡ ring_edge ring.outline.now ring.from ring.size i) }
    ensures { result ≡ meet_pair ring.entry.outline.now ring.entry.from ring.entry.size i j }
{
    if i + ring.size == j + 1 {
        return false;
    }
    shares_with(g, ring, j)
}

// Bit z of the word stands for edge j + z. The while: the bits that are not set are skipped, so the step is not one.
fn word_meets(ring: Ring, i: usize, j: usize, word: u64) -> bool
    requires { (i + 1 < j) × (j ≤ ring.size) × Candidates ring.outline.now ring.from ring.size i j word }
    ensures { result ≡ meets_with ring.entry.outline.now ring.entry.from ring.entry.size i }
{
    let n = ring.size;
    let g = ring.edge(i);
    let mut rest = word;
    let mut at = j;
    while rest != 0 {
        let zeros = u64::trailing_zeros(rest);
        at += zeros as usize;
        if n <= at {
            return false;
        }
        if pair_meets(g, ring, i, at) {
            return true;
        }
        rest = (rest >> zeros) >> 1;
        at += 1;
    }
    false
}

fn banded_meets(ring: Ring, columns: &Bands, rows: &Bands) -> bool
    requires size { (2 ≤ ring.size) × (ring.size ≤ most_edges) }
    requires columns { Laid ring.outline.now ring.from ring.size 0 columns.now.ends columns.now.below columns.now.above }
    requires rows { Laid ring.outline.now ring.from ring.size 1 rows.now.ends rows.now.below rows.now.above }
    ensures { result ≡ meets ring.entry.outline.now ring.entry.from ring.entry.size }
{
    for i in 0..ring.size - 2 {
        let near = columns.found_near(i) & rows.found_near(i);
        if word_meets(ring, i, i + 2, near >> (i + 2)) {
            return true;
        }
    }
    false
}

fn large_meets(ring: Ring) -> bool
    requires { (2 ≤ ring.size) × (ring.size ≤ most_edges) }
    ensures { result ≡ meets ring.entry.outline.now ring.entry.from ring.entry.size }
{
    let b = ring.own_box();
    let mut columns = Bands::EMPTY;
    columns.lay(ring, Axis::X, b.west, b.east);
    let mut rows = Bands::EMPTY;
    rows.lay(ring, Axis::Y, b.south, b.north);
    banded_meets(ring, &columns, &rows)
}

fn ring_meets(ring: Ring) -> bool
    requires { (3 ≤ ring.size) × (ring.size ≤ most_edges) }
    ensures { result ≡ meets ring.entry.outline.now ring.entry.from ring.entry.size }
{
    let n = ring.size;
    if n == 3 {
        return false;
    }
    if n == 4 {
        return four_meets(ring);
    }
    if n <= SMALL {
        return small_meets(ring);
    }
    large_meets(ring)
}

// Rules 5, 6 and 7. Where an edge folds back rule 6 is broken already, and nobody looks for edges that meet.
pub fn ring_faults(ring: Ring) -> Faults
    requires { (3 ≤ ring.size) × (ring.size ≤ most_edges) }
    ensures { result ≡ faults_of ring.entry.outline.now ring.entry.from ring.entry.size }
{
    let s = ring_scan(ring);
    if s.folded {
        return Faults {
            repeated: s.repeated,
            tangled: true,
            turned: s.turned,
        };
    }
    let tangled = ring_meets(ring);
    Faults {
        repeated: s.repeated,
        tangled,
        turned: s.turned,
    }
}
