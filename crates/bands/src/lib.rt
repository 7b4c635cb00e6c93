// The edges of a ring by bands. In each axis the ring's box is cut into 32 bands of equal width; for each band a word tells which
// edges have an end in it or before it, and another which have one in it or past it. Two edges that overlap find each other in the
// words of their own bands. A word may name an edge too many, which costs time; it never leaves one out.
#![tactic(auto)]

ghost use Rattle.std.specs.Prelude.{◌≡◌, ℕ, ◌+◌, ◌-◌, ◌≤◌, ◌<◌, length, get_or, replicate};
ghost use Rattle.plane.specs.Points.{vertex};
ghost use Rattle.ring.specs.Edges.{corner};
ghost use Rattle.ring.specs.Stretch.{Readable};
ghost use Rattle.bands.specs.Axis.{place_in, number_of};
ghost use Rattle.bands.specs.Bands.{bands, most_edges, band_of, shift_for, bands_of, marks_of, below_of, above_of, Within, Fitting, near_of};

use circuit::Ring;
use plane::place_at;

pub const BANDS: usize = 32;

// A word has a bit for each edge. A ring that is only seen (`seen`) may have more, so that it has no more is asked where words are laid, and
// is no fact of `Ring`.
pub const MOST_EDGES: usize = 64;

// The vertices of so many edges, the first once more behind the last.
pub const MOST_ENDS: usize = 65;

#[derive(Clone, Copy)]
pub enum Axis {
    X,
    Y,
}

// The bands of a ring's edges in one axis: edge k runs from band ends[k] to band ends[k + 1]. Of each band, the edges with an end in it or
// before it, and those with one in it or past it. Arrays, as there is no heap; two of them and not one of pairs, as they are filled from
// opposite ends and `lay_bands` promises each. They are filled in place: to return them takes a quarter longer for a ring of 17 vertices.
#[derive(Drop)]
pub struct Bands {
    pub ends: [u8; MOST_ENDS],
    pub below: [u64; BANDS],
    pub above: [u64; BANDS],
}

// The place of vertex i in one axis.
pub fn place_in(outline: &[i32], i: usize, axis: Axis) -> u32
    requires { Readable outline.now i }
    ensures { result ≡ place_in (number_of axis) (vertex outline.now i) }
{
    place_at(outline, 2 * i + axis as usize) as u32
}

// How wide bands must be, as a power of two, for 32 of them to hold the width.
fn shift_for(width: u32) -> u32
    ensures { result ≡ shift_for width }
{
    27u32.saturating_sub(width.leading_zeros())
}

// The band of the ring's vertex k.
fn band_of(ring: Ring, k: usize, axis: Axis, low: u32, shift: u32) -> u8
    requires { (k < ring.size) × (low ≤ place_in (number_of axis) (corner ring.outline.now ring.from k)) × (band_of low shift (place_in (number_of axis) (corner ring.outline.now ring.from k)) < bands) × (shift < 32) }
    ensures { result ≡ band_of low shift (place_in (number_of axis) (corner ring.entry.outline.now ring.entry.from k)) }
{
    ((place_in(ring.outline, ring.from + k, axis) - low) >> shift) as u8
}

// The bands of the ring's vertices, the first once more behind the last.
fn band_ends(ring: Ring, axis: Axis, low: u32, shift: u32, ends: &mut [u8])
    requires { (0 < ring.size) × (ring.size < length ends.old) × (shift < 32) × Fitting ring.outline.now ring.from ring.size (number_of axis) low shift }
    ensures { ends.new ≡ bands_of ring.entry.outline.now ring.entry.from ring.entry.size (number_of axis) low shift ends.old }
{
    for k in 0..ring.size {
        ends[k] = band_of(ring, k, axis, low, shift);
    }
    ends[ring.size] = ends[0];
}

// Each of the ring's n edges marked in the bands of its ends: vertex e + 1 is an end of the edges e and e + 1.
fn mark(ends: &[u8], n: usize, words: &mut [u64])
    requires { (n ≤ most_edges) × (n < length ends.now) × (length words.old ≡ bands) × ((v : ℕ) → v ≤ n → get_or ends.now v 0 < bands) }
    ensures { words.new ≡ marks_of ends.now n words.old }
{
    words[ends[0] as usize] = 1;
    for e in 0..n {
        words[ends[e + 1] as usize] |= 3 << e;
    }
}

// Each word joined with those before it.
fn gather_below(words: &mut [u64])
    requires { length words.old ≡ bands }
    ensures { words.new ≡ below_of words.old }
{
    let mut joined: u64 = 0;
    for b in 0..BANDS {
        joined |= words[b];
        words[b] = joined;
    }
}

// Each word joined with those past it.
fn gather_above(words: &[u64], above: &mut [u64])
    requires { (length words.now ≡ bands) × (length above.old ≡ bands) }
    ensures { above.new ≡ above_of words.now }
{
    let mut joined: u64 = 0;
    for b in (0..BANDS).rev() {
        joined |= words[b];
        above[b] = joined;
    }
}

// The bands of one axis of a ring that lies between `low` and `high`, into any three lists with room for them. Part of each caller, so that
// it is made for the lengths of the caller's lists.
#[inline(always)]
pub fn lay_bands(
    ring: Ring,
    axis: Axis,
    low: u64,
    high: u64,
    ends: &mut [u8],
    below: &mut [u64],
    above: &mut [u64],
)
    requires ring { (0 < ring.size) × (ring.size ≤ most_edges) × Within ring.outline.now ring.from ring.size (number_of axis) low high × (high ≤ 2000000) }
    requires room { (ring.size < length ends.old) × (length below.old ≡ bands) × (length above.old ≡ bands) }
    ensures ends_after { ends.new ≡ bands_of ring.entry.outline.now ring.entry.from ring.entry.size (number_of axis) low (shift_for (high - low)) ends.old }
    ensures below_after { below.new ≡ below_of (marks_of ends.new ring.entry.size below.old) }
    ensures above_after { above.new ≡ above_of (marks_of ends.new ring.entry.size below.old) }
{
    let shift = shift_for((high - low) as u32);
    band_ends(ring, axis, low as u32, shift, ends);
    mark(ends, ring.size, below);
    gather_above(below, above);
    gather_below(below);
}

// A word with every edge that overlaps edge i in the axis, by the three lists that `lay_bands` fills.
pub fn found_near(ends: &[u8], below: &[u64], above: &[u64], i: usize) -> u64
    requires { (i + 1 < length ends.now) × (length below.now ≡ bands) × (length above.now ≡ bands) × (get_or ends.now i 0 < bands) × (get_or ends.now (i + 1) 0 < bands) }
    ensures { result ≡ near_of ends.now below.now above.now i }
{
    let a = ends[i] as usize;
    let b = ends[i + 1] as usize;
    (below[a] | below[b]) & (above[a] | above[b])
}

impl Bands {
    // What `lay` fills.
    pub const EMPTY: Self = Bands {
        ends: [0; MOST_ENDS],
        below: [0; BANDS],
        above: [0; BANDS],
    };

    // The bands of one axis of a ring that lies between `low` and `high`.
    pub fn lay(&mut self, ring: Ring, axis: Axis, low: u64, high: u64)
        requires { (0 < ring.size) × (ring.size ≤ most_edges) × Within ring.outline.now ring.from ring.size (number_of axis) low high × (high ≤ 2000000) }
        ensures ends { self.new.ends ≡ bands_of ring.entry.outline.now ring.entry.from ring.entry.size (number_of axis) low (shift_for (high - low)) self.old.ends }
        ensures below { self.new.below ≡ below_of (marks_of self.new.ends ring.entry.size self.old.below) }
        ensures above { self.new.above ≡ above_of (marks_of self.new.ends ring.entry.size self.old.below) }
    {
        lay_bands(
            ring,
            axis,
            low,
            high,
            &mut self.ends,
            &mut self.below,
            &mut self.above,
        );
    }

    // A word with every edge that overlaps edge i in the axis.
    pub fn found_near(&self, i: usize) -> u64
        requires { (i < most_edges) × (get_or self.now.ends i 0 < bands) × (get_or self.now.ends (i + 1) 0 < bands) }
        ensures { result ≡ near_of self.now.ends self.now.below self.now.above i }
    {
        found_near(&self.ends, &self.below, &self.above, i)
    }
}
