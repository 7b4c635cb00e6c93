// Where the label of a parcel stands: in the middle of the widest stretch of its first ring along one of three level lines, or above a ring
// that it would hide.
ghost use Rattle.std.specs.Prelude.{◌≡◌};

use scale::shape::{Shape, Vertex, between};
use svg::Page;

// An edge of a ring in the picture, from a to b; y grows downwards.
#[derive(Clone, Copy)]
struct Stroke {
    a: Vertex,
    b: Vertex,
}

// No edge is taken to cross a level line here, and no height is above it.
const NOWHERE: u16 = 65535;

// A stretch of a level line: its middle and how wide it is.
#[derive(Clone, Copy)]
struct Stretch {
    x: u16,
    y: u16,
    width: u16,
}

// Between what heights a ring lies; where it has no vertex, `high` is below `low`.
#[derive(Clone, Copy)]
struct LowHigh {
    low: u16,
    high: u16,
}

fn heights(ring: &[Vertex]) -> LowHigh {
    LowHigh {
        low: ring.iter().map(|v| v.y).min().unwrap_or(NOWHERE),
        high: ring.iter().map(|v| v.y).max().unwrap_or(0),
    }
}

impl Stroke {
    // Does the edge cross the level line half a tenth below y, going up?
    fn rises(self, y: u16) -> bool {
        y < self.a.y && self.b.y <= y
    }

    fn falls(self, y: u16) -> bool {
        self.a.y <= y && y < self.b.y
    }

    // Where the edge crosses a level line.
    fn crossing(self, y: u16) -> u16 {
        let to_line = self.a.y.abs_diff(y);
        let to_end = self.a.y.abs_diff(self.b.y);
        between(self.a.x, self.b.x, u64::from(to_line), u64::from(to_end))
    }
}

// How far east of x the ring's edges go down over the level line next. A ring runs clockwise, so up to there it is inside.
fn width_from(ring: &[Vertex], y: u16, x: u16) -> Option<u16> {
    ring.iter()
        .zip(ring.iter().cycle().skip(1))
        .map(|(a, b)| Stroke { a: *a, b: *b })
        .filter(|edge| edge.falls(y))
        .filter_map(|edge| edge.crossing(y).checked_sub(x))
        .min()
        .filter(|width| *width < NOWHERE - x)
}

// The widest stretch along a level line; of two that are as wide the first.
fn widest(ring: &[Vertex], y: u16) -> Stretch {
    let mut best = Stretch { x: 0, y, width: 0 };
    for (a, b) in ring.iter().zip(ring.iter().cycle().skip(1)) {
        let edge = Stroke { a: *a, b: *b };
        if edge.rises(y) {
            let x = edge.crossing(y);
            let width = width_from(ring, y, x).unwrap_or(0);
            if best.width < width {
                best = Stretch {
                    x: x.saturating_add(width / 2),
                    y,
                    width,
                };
            }
        }
    }
    best
}

// The better one of two, where the second has to be wider by some pixels.
fn better(a: Stretch, b: Stretch) -> Stretch {
    if a.width <= 60000 && a.width + 400 < b.width {
        b
    } else {
        a
    }
}

// Above the ring where it is smaller than its number.
fn clear_of(l: Stretch, h: LowHigh, slot: u16) -> Stretch {
    let digits_wide: u16 = if slot < 10 { 150 } else { 300 };
    if h.high < h.low || digits_wide <= l.width || 400 <= h.high - h.low {
        return l;
    }
    Stretch {
        x: l.x,
        y: if 120 < h.low { h.low - 120 } else { l.y },
        width: l.width,
    }
}

fn label_of(ring: &[Vertex], slot: u16) -> Stretch {
    let h = heights(ring);
    let middle = widest(ring, between(h.low, h.high, 1, 2));
    let upper = widest(ring, between(h.low, h.high, 1, 3));
    let lower = widest(ring, between(h.low, h.high, 2, 3));
    clear_of(better(better(middle, upper), lower), h, slot)
}

// The slot in the middle of the place that its label has.
pub fn put_label(page: &mut Page, s: Shape)
    ensures { page.new.out.ghost_name ≡ page.old.out.ghost_name }
{
    let slot = s.slot;
    let label = label_of(s.ring(0), slot);
    let x = label.x;
    let y = if label.y < 60000 {
        label.y + 90
    } else {
        label.y
    };
    write!(page, "<text x='{x}' y='{y}' >{slot}</text>\n");
}
