// From the places of a card to tenths of a pixel: the view of a map, and a parcel as it is drawn.
#![tactic(auto)]

pub mod shape;
pub mod view;
