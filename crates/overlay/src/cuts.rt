// The cut points of the primary's edges: the points strictly between an edge's ends at which it meets a line of the box along which it does
// not run (SCOPE 4.8). A corner that an edge runs through is one such point.
ghost use Rattle.std.specs.Prelude.{◌≡◌};

use field::Field;
use plane::Edge;
use scale::shape::{between, ring_of};
use scale::view::{Corner, Extent, View, corners_of, x_of, y_of};
use svg::Page;

const MOST_PLACE: u64 = 2000000;

// Does the line l lie strictly between a and b?
fn within(a: u64, l: u64, b: u64) -> bool {
    a.min(b) < l && l < a.max(b)
}

// Is k of n the same part of a way as j of m?
fn same_part(k: u64, n: u64, j: u64, m: u64) -> bool {
    if MOST_PLACE < k.max(n).max(j).max(m) {
        return false;
    }
    k * m == j * n
}

// Does the edge pass the upright line x where it passes the level line y?
fn at_corner(g: Edge, x: u64, y: u64) -> bool {
    within(g.ax, x, g.bx)
        && same_part(
            g.ax.abs_diff(x),
            g.ax.abs_diff(g.bx),
            g.ay.abs_diff(y),
            g.ay.abs_diff(g.by),
        )
}

fn put_cut(page: &mut Page, x: u16, y: u16)
    ensures { page.new.out.ghost_name ≡ page.old.out.ghost_name }
{
    write!(page, "<circle cx='{x}' cy='{y}' r='75'/>\n");
}

// Where an upright line cuts the edge.
fn put_upright_cut(page: &mut Page, v: View, g: Edge, x: u64)
    ensures { page.new.out.ghost_name ≡ page.old.out.ghost_name }
{
    if within(g.ax, x, g.bx) {
        let y = between(
            y_of(v, g.ay),
            y_of(v, g.by),
            g.ax.abs_diff(x),
            g.ax.abs_diff(g.bx),
        );
        put_cut(page, x_of(v, x), y);
    }
}

// Where a level line cuts it, unless an upright one does there.
fn put_level_cut(page: &mut Page, v: View, g: Edge, b: Extent, y: u64)
    ensures { page.new.out.ghost_name ≡ page.old.out.ghost_name }
{
    if !within(g.ay, y, g.by) || at_corner(g, b.west, y) || at_corner(g, b.east, y) {
        return;
    }
    let x = between(
        x_of(v, g.ax),
        x_of(v, g.bx),
        g.ay.abs_diff(y),
        g.ay.abs_diff(g.by),
    );
    put_cut(page, x, y_of(v, y));
}

fn put_edge_cuts(page: &mut Page, v: View, g: Edge, b: Extent)
    ensures { page.new.out.ghost_name ≡ page.old.out.ghost_name }
{
    put_upright_cut(page, v, g, b.west);
    put_upright_cut(page, v, g, b.east);
    put_level_cut(page, v, g, b, b.south);
    put_level_cut(page, v, g, b, b.north);
}

// The cuts of a ring's edges, from each vertex to the next.
fn put_ring_cuts(page: &mut Page, v: View, ring: &[Corner], b: Extent)
    ensures { page.new.out.ghost_name ≡ page.old.out.ghost_name }
{
    for (from, to) in ring.iter().zip(ring.iter().cycle().skip(1)) {
        let edge = Edge {
            ax: from.x,
            ay: from.y,
            bx: to.x,
            by: to.y,
        };
        put_edge_cuts(page, v, edge, b);
    }
}

pub fn put_cuts(page: &mut Page, v: View, p: Field, b: Extent)
    ensures { page.new.out.ghost_name ≡ page.old.out.ghost_name }
{
    let corners = corners_of(p);
    write!(
        page,
        "<g fill='#ffffff' stroke='#a00028' stroke-width='35'>\n"
    );
    for r in 0..p.rings {
        put_ring_cuts(page, v, ring_of(&corners, p.ends, r), b);
    }
    write!(page, "</g>\n");
}
