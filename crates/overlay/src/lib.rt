// What the picture of a pair lays over the map: the lines and the tiles of the reference's box, and the cut points of the primary's edges.
#![tactic(auto)]

pub mod cuts;
pub mod tiles;
