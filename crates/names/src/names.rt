// Sets of tiles and of directions as words: the names of their bits, a colon between two.
ghost use Rattle.std.specs.Prelude.{◌≡◌, [], ◌∷◌, ◌++◌, ◌+◌, ◌≤◌, ◌<◌, length};
ghost use Rattle.names.specs.Names.{name_of, names_to, names_of};
ghost use Rattle.names.specs.Numbers.{space};
ghost use Rattle.names.specs.Steps.{Put, joint, name_step};

use crate::texts::{put_byte, put_text};
use words::{COLON, SPACE};

// Bit 4 is written B in tiles, and O in directions.
pub const TILES_MIDDLE: u8 = b'B';

pub const DIRECTIONS_MIDDLE: u8 = b'O';

const BITS: usize = 9;

// The name of bit k, where `middle` is the letter of bit 4.
fn put_name(out: &mut [u8], at: usize, middle: u8, k: usize) -> usize
    requires { (k < 9) × (at + length (name_of middle k) ≤ length out.old) }
    ensures { Put out.old at (name_of middle k) result out.new }
{
    let middle_name = [middle];
    let names: [&[u8]; 9] = [
        b"NW",
        b"N",
        b"NE",
        b"W",
        &middle_name,
        b"E",
        b"SW",
        b"S",
        b"SE",
    ];
    put_text(out, at, names[k])
}

// A colon, where the word has begun.
fn put_joint(out: &mut [u8], from: usize, at: usize) -> usize
    requires { at + length (joint from at) ≤ length out.old }
    ensures { Put out.old at (joint from at) result out.new }
{
    if at == from {
        return at;
    }
    put_byte(out, at, COLON)
}

// What bit k adds to a word that starts at `from` and has come to the place `at`.
fn put_bit(out: &mut [u8], from: usize, at: usize, middle: u8, set: u16, k: usize) -> usize
    requires { (k < 9) × (at ≡ from + length (names_to middle set k)) × (at + length (name_step middle set k) ≤ length out.old) }
    ensures { Put out.old at (name_step middle set k) result out.new }
{
    if (set >> k) % 2 != 1 {
        return at;
    }
    let next = put_joint(out, from, at);
    put_name(out, next, middle, k)
}

fn put_names(out: &mut [u8], from: usize, middle: u8, set: u16) -> usize
    requires { from + length (names_of middle set) ≤ length out.old }
    ensures { Put out.old from (names_of middle set) result out.new }
{
    let mut at = from;
    for k in 0..BITS {
        at = put_bit(out, from, at, middle, set, k);
    }
    at
}

// The names of a set, and a space.
pub fn put_set(out: &mut [u8], at: usize, middle: u8, set: u16) -> usize
    requires { at + length (names_of middle set ++ (space ∷ [])) ≤ length out.old }
    ensures { Put out.old at (names_of middle set ++ (space ∷ [])) result out.new }
{
    let next = put_names(out, at, middle, set);
    put_byte(out, next, SPACE)
}
