// One leg seen from one box, asked with eight numbers of any size: its tiles in order of travel.
#![tactic(auto)]

ghost use Rattle.std.specs.Prelude.{◌≡◌};
ghost use Rattle.plane.specs.Choice.{pick};
ghost use Rattle.plane.specs.Placed.{BoxInPlaces, EdgeInPlaces};
ghost use Rattle.edge.specs.Walk.{list_of};
ghost use Rattle.edge.specs.Drawn.{drawn};
ghost use Rattle.leg.specs.Asked.{is_upright, asked_list};

use edge::Walk;
use outline::some_outside;
use plane::{Box, Edge, place_of};

// The walk along the edge that eight numbers say: x and y of its start and of its end, and west, south, east and north of the box. One
// without a tile where they say no edge or no box, or are not eight.
pub fn asked_walk(xs: &[i32]) -> Walk
    ensures { result ≡ drawn (asked_list xs.now) }
{
    let [ax, ay, bx, by, west, south, east, north] = xs else {
        return no_walk();
    };
    if some_outside(xs) {
        return no_walk();
    }
    let g = Edge {
        ax: place_of(*ax),
        ay: place_of(*ay),
        bx: place_of(*bx),
        by: place_of(*by),
    };
    let b = Box {
        west: place_of(*west),
        south: place_of(*south),
        east: place_of(*east),
        north: place_of(*north),
    };
    upright_walk(b, g)
}

fn no_walk() -> Walk
    ensures { result ≡ drawn 0 }
{
    Walk {
        list: 0,
        set: 0,
        pieces: 1,
    }
}

// The walk where the box is upright.
fn upright_walk(b: Box, g: Edge) -> Walk
    requires { BoxInPlaces b × EdgeInPlaces g }
    ensures { result ≡ drawn (pick (is_upright b) (list_of b g) 0) }
{
    if b.east < b.west {
        return no_walk();
    }
    if b.north < b.south {
        return no_walk();
    }
    edge::walk_edge(b, g)
}
