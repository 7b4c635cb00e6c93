// From map units to tenths of a pixel. The parcels fill 7,600 tenths from west to east, or 5,600 from south to north where that
// is less; the frame leaves 800 on each side of them, is 9,200 wide and at least 3,000 high.
ghost use Rattle.std.specs.Prelude.{◌≡◌, ◌≤◌, ◌<◌, min};
ghost use Rattle.plane.specs.Lists.{tab};
ghost use Rattle.scale.specs.Places.{tenths_of, placed_of, x_of, y_of, place_in, number_place, corner_of};

use contents::MOST_NUMBERS;
use field::Field;
use plane::{in_range, place_of};
use region::{MOST_RINGS, MOST_VERTICES};

const ACROSS: u16 = 9200;

const INNER: u16 = 7600;

const BORDER: u16 = 1600;

const LEAST_HEIGHT: u16 = 3000;

const MARGIN: u16 = 200;

const MOST_PLACE: u64 = 2000000;

// The places between which the parcels lie.
#[derive(Clone, Copy)]
pub struct Extent {
    pub west: u64,
    pub south: u64,
    pub east: u64,
    pub north: u64,
}

// Where the north-western corner of the parcels lies on the map and in the picture, how many tenths a span of map units has, and the height
// of the frame.
#[derive(Clone, Copy)]
pub struct View {
    pub west: u64,
    pub north: u64,
    pub span: u64,
    pub left: u16,
    pub top: u16,
    pub height: u16,
}

// A vertex of a parcel on the map, by its places.
#[derive(Clone, Copy)]
pub struct Corner {
    pub x: u64,
    pub y: u64,
}

// No Option: this extent joins like any other, and leaves the other as it is.
pub fn nothing() -> Extent {
    Extent {
        west: MOST_PLACE,
        south: MOST_PLACE,
        east: 0,
        north: 0,
    }
}

pub fn joined(a: Extent, b: Extent) -> Extent {
    Extent {
        west: a.west.min(b.west),
        south: a.south.min(b.south),
        east: a.east.max(b.east),
        north: a.north.max(b.north),
    }
}

// How many vertices a parcel has.
pub fn vertices_of(f: Field) -> usize
    ensures { result ≤ 64 }
{
    if f.rings == 0 || MOST_RINGS < f.rings {
        return 0;
    }
    let ends = f.ends;
    least(ends[f.rings - 1])
}

// A ring end, cut down to the vertices that a parcel may have.
pub fn least(end: u16) -> usize
    ensures { (result ≡ min end 64) × (result ≤ 64) }
{
    usize::from(end).min(MOST_VERTICES)
}

// The place of number i.
pub fn place_at(numbers: [i32; MOST_NUMBERS], i: usize) -> u64
    ensures { result ≡ number_place numbers i }
{
    if MOST_NUMBERS <= i {
        return 0;
    }
    place(numbers[i])
}

fn place(c: i32) -> u64
    ensures { result ≡ place_in c }
{
    if in_range(c) { place_of(c) } else { 0 }
}

// The vertices of a parcel; what stands behind the last one is no vertex.
pub fn corners_of(f: Field) -> [Corner; MOST_VERTICES]
    ensures { result ≡ tab (corner_of f.numbers) 64 }
{
    let mut corners = [Corner { x: 0, y: 0 }; MOST_VERTICES];
    for (i, c) in corners.iter_mut().enumerate() {
        *c = corner_at(f.numbers, i);
    }
    corners
}

fn corner_at(numbers: [i32; MOST_NUMBERS], i: usize) -> Corner
    requires { i < 64 }
    ensures { result ≡ corner_of numbers i }
{
    Corner {
        x: place_at(numbers, 2 * i),
        y: place_at(numbers, 2 * i + 1),
    }
}

pub fn extent_of(f: Field) -> Extent {
    let mut e = nothing();
    for i in 0..vertices_of(f) {
        e = joined(e, extent_at(corner_at(f.numbers, i)));
    }
    e
}

fn extent_at(c: Corner) -> Extent {
    Extent {
        west: c.x,
        south: c.y,
        east: c.x,
        north: c.y,
    }
}

// How far b lies above a, at least 1.
fn apart(a: u64, b: u64) -> u64 {
    b.saturating_sub(a).max(1)
}

// How many tenths d units are, where a span has 7,600, cut down to that.
pub fn tenths(d: u64, span: u64) -> u16
    ensures { (result ≡ tenths_of d span) × (result ≤ 7600) }
{
    if span == 0 {
        return 0;
    }
    if span <= d {
        return INNER;
    }
    if MOST_PLACE < d {
        return INNER;
    }
    let t = d * 7600 / span;
    if 7600 < t {
        return INNER;
    }
    t as u16
}

// The span that 7,600 tenths have where `up` has at most 5,600.
fn enough(up: u64) -> u64 {
    if MOST_PLACE < up {
        return up;
    }
    up * 19 / 14 + 1
}

pub fn view_of(e: Extent) -> View {
    let across = apart(e.west, e.east);
    let up = apart(e.south, e.north);
    let span = across.max(enough(up));
    let inner = tenths(up, span);
    let height = (inner + BORDER).max(LEAST_HEIGHT);
    View {
        west: e.west,
        north: e.north,
        span,
        left: MARGIN + (ACROSS - tenths(across, span)) / 2,
        top: MARGIN + (height - inner) / 2,
        height,
    }
}

// The tenths from a to b, behind a margin.
fn placed(margin: u16, a: u64, b: u64, span: u64) -> u16
    ensures { (result ≡ placed_of margin a b span) × (result ≤ 60000) }
{
    if 50000 < margin {
        return 50000;
    }
    if b <= a {
        return margin;
    }
    margin + tenths(b - a, span)
}

pub fn x_of(v: View, x: u64) -> u16
    ensures { (result ≡ x_of v x) × (result ≤ 60000) }
{
    placed(v.left, v.west, x, v.span)
}

pub fn y_of(v: View, y: u64) -> u16
    ensures { (result ≡ y_of v y) × (result ≤ 60000) }
{
    placed(v.top, y, v.north, v.span)
}

// The lower edge of the frame.
pub fn bottom(v: View) -> u16
    ensures { result ≤ 10200 }
{
    v.height.min(10000) + 200
}
