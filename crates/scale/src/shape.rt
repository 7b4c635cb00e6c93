// A parcel in the picture: its slot, its ring ends and its vertices in tenths of a pixel.
ghost use Rattle.std.specs.Prelude.{◌≡◌, ◌≤◌};
ghost use Rattle.plane.specs.Lists.{tab};
ghost use Rattle.scale.specs.Places.{corner_of};
ghost use Rattle.scale.specs.Shapes.{end_before, ring_of, vertex_of};

use crate::view::{Corner, View, corners_of, least, x_of, y_of};
use field::Field;
use region::{MOST_RINGS, MOST_VERTICES};

// A place in the picture; y grows downwards.
#[derive(Clone, Copy)]
pub struct Vertex {
    pub x: u16,
    pub y: u16,
}

// No heap: each list has room for the longest parcel, and `rings` and `ends` say how much of it is in use.
#[derive(Clone, Copy)]
pub struct Shape {
    pub slot: u16,
    pub rings: usize,
    pub ends: [u16; MOST_RINGS],
    pub vertices: [Vertex; MOST_VERTICES],
}

impl Shape {
    // The vertices of ring r.
    pub fn ring(&self, r: usize) -> &[Vertex]
        ensures { result.now ≡ ring_of self.now.vertices self.now.ends r }
    {
        ring_of(&self.vertices, self.ends, r)
    }
}

// The part of a parcel's vertices that is ring r.
pub fn ring_of<T>(vertices: &[T; MOST_VERTICES], ends: [u16; MOST_RINGS], r: usize) -> &[T]
    ensures { result.now ≡ ring_of vertices.now ends r }
{
    if MOST_RINGS <= r {
        return &[];
    }
    let from = end_before(ends, r);
    let to = end_before(ends, r + 1);
    if to < from {
        return &[];
    }
    let all = &vertices[..];
    &all[from..to]
}

pub fn shape_of(v: View, f: Field) -> Shape
    ensures slot_value { (result.slot ≡ f.slot) × (result.rings ≡ f.rings) × (result.ends ≡ f.ends) }
    ensures vertices_value { result.vertices ≡ tab (λ i. vertex_of v (corner_of f.numbers i)) 64 }
{
    let corners = corners_of(f);
    let ends = f.ends;
    let mut vertices = [Vertex { x: 0, y: 0 }; MOST_VERTICES];
    for (i, place) in vertices.iter_mut().enumerate() {
        *place = vertex_of(v, corners[i]);
    }
    Shape {
        slot: f.slot,
        rings: f.rings,
        ends,
        vertices,
    }
}

fn vertex_of(v: View, c: Corner) -> Vertex
    ensures { result ≡ vertex_of v c }
{
    Vertex {
        x: x_of(v, c.x),
        y: y_of(v, c.y),
    }
}

// How many vertices there are up to the end of the rings before r.
pub fn end_before(ends: [u16; MOST_RINGS], r: usize) -> usize
    ensures { (result ≡ end_before ends r) × (result ≤ 64) }
{
    if r == 0 {
        return 0;
    }
    if MOST_RINGS < r {
        return 0;
    }
    least(ends[r - 1])
}

// An edge in the picture, from a to b.
#[derive(Clone, Copy)]
pub struct Stroke {
    pub a: Vertex,
    pub b: Vertex,
}

// A number between a and b: a, and the part k of n of the way to b; the lesser of the two where that lies more than 60,000 above it, as no
// place in a picture does.
pub fn between(a: u16, b: u16, k: u64, n: u64) -> u16 {
    if n <= k || 2000000 < k {
        return b;
    }
    let way = u64::from(a.abs_diff(b));
    let part = (k * way / n).min(way) as u16;
    let there = if a <= b { a + part } else { a - part };
    let low = a.min(b);
    if 60000 < there - low { low } else { there }
}
