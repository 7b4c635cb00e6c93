// Tiles, directions and numbers as the words of a list, written into a buffer at a place. Who calls has room for the word; the place behind it
// is answered.
#![tactic(auto)]

mod names;
mod texts;

pub use names::{DIRECTIONS_MIDDLE, TILES_MIDDLE, put_set};
pub use texts::{put_number, put_text};
