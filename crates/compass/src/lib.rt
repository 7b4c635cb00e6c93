// The directions of a matrix by differences, as the rule is taught (docs/TEACHING.md works it by hand): how far up or down, and how far west or
// east, a cell of the first region stands from a cell of the second.
//
// A difference in rows is a number from 0 to 4: two up, one up, none, one down, two down. A difference in columns is one too: two west, one
// west, none, one east, two east. The cells of a region are a set of squares on squared paper with five squares a row, of which the matrix
// takes three, so that what is moved by a difference never runs from one row into another.
#![tactic(auto)]

ghost use Rattle.std.specs.Prelude.{◌≡◌, ◌+◌, ◌*◌, ◌^◌, ◌≤◌, ◌<◌};
ghost use Rattle.plane.specs.TileSet.{set_of, one_if};
ghost use Rattle.compass.specs.Directions.{side_of, directions_of};
ghost use Rattle.compass.specs.Differences.{holds_either, squares_of, occurs, place_of, direction_at, within_rows};

use matrix::{BOTH, FIRST, SECOND};
use std::cmp::Ordering;

// How many differences there are in rows, and in columns.
const DIFFERENCES: usize = 5;

// The difference of two cells in one row, or in one column.
const NONE: usize = 2;

// The squares that a move by no difference counts: two rows and two columns, as differences are counted from two up and two west.
const UNMOVED: usize = 12;

// The compass places of the cells holding the first region from the cells holding the second: with each difference in rows, from two up to two
// down, those that it gives.
pub fn directions_of(m: [[u8; 3]; 3]) -> u16
    ensures { result ≡ directions_of m }
{
    let first = squares(m, FIRST);
    let second = squares(m, SECOND);
    let mut directions: u16 = 0;
    for rows in 0..DIFFERENCES {
        directions = directions | directions_in_rows(first, second, rows);
    }
    directions
}

// The directions that one difference in rows gives: with it, each difference in columns, from two west to two east.
fn directions_in_rows(first: u64, second: u64, rows: usize) -> u16
    requires { (rows < 5) × (first < 2 ^ 15) × (second < 2 ^ 15) }
    ensures { result ≡ set_of (within_rows first second rows) 9 }
{
    let mut directions: u16 = 0;
    for columns in 0..DIFFERENCES {
        directions = directions | direction_at(first, second, rows, columns);
    }
    directions
}

// The direction that one difference gives: its compass place, if some cells stand so; no direction if none do.
fn direction_at(first: u64, second: u64, rows: usize, columns: usize) -> u16
    requires { (rows < 5) × (columns < 5) × (first < 2 ^ 15) × (second < 2 ^ 15) }
    ensures { result ≡ set_of (direction_at first second rows columns) 9 }
{
    if !occurs(first, second, rows, columns) {
        return 0;
    }
    1 << compass_place(rows, columns)
}

// Whether some cell of the first region stands at this difference from a cell of the second: the second's cells are moved by the difference,
// and one of them falls on a cell of the first.
fn occurs(first: u64, second: u64, rows: usize, columns: usize) -> bool
    requires { (rows < 5) × (columns < 5) × (first < 2 ^ 15) × (second < 2 ^ 15) }
    ensures { result ≡ occurs first second rows columns }
{
    let unmoved = first << UNMOVED;
    let moved = second << (5 * rows + columns);
    unmoved & moved != 0
}

// The compass place of a difference: rows up are north, none the middle, down south; columns west, middle, east.
fn compass_place(rows: usize, columns: usize) -> u16
    ensures { (result ≡ place_of rows columns) × (result < 9) }
{
    3 * side_of(rows) + side_of(columns)
}

// 0 where a difference goes up or west, 1 where it is none, 2 where it goes down or east.
fn side_of(difference: usize) -> u16
    ensures { (result ≡ side_of difference 2) × (result ≤ 2) }
{
    match difference.cmp(&NONE) {
        Ordering::Less => 0,
        Ordering::Equal => 1,
        Ordering::Greater => 2,
    }
}

// The cells that hold the region whose own value is given, as squares. Each row stands five squares behind the one before, so its marks count
// 32 times as much.
fn squares(m: [[u8; 3]; 3], own: u8) -> u64
    ensures { (result ≡ squares_of m own) × (result < 2 ^ 15) }
{
    let north = row_squares(m[0][0], m[0][1], m[0][2], own);
    let middle = row_squares(m[1][0], m[1][1], m[1][2], own);
    let south = row_squares(m[2][0], m[2][1], m[2][2], own);
    north + 32 * middle + 1024 * south
}

// The squares of one row, from the west.
fn row_squares(west: u8, middle: u8, east: u8, own: u8) -> u64
    ensures { (result ≡ one_if (holds_either west own) + 2 * one_if (holds_either middle own) + 4 * one_if (holds_either east own)) × (result < 8) }
{
    mark(west, own) + 2 * mark(middle, own) + 4 * mark(east, own)
}

// 1 for a cell that holds the region whose own value is given, 0 for any other: such a cell has that value, or the value of both regions.
fn mark(value: u8, own: u8) -> u64
    ensures { (result ≡ one_if (holds_either value own)) × (result ≤ 1) }
{
    u64::from((value == own) | (value == BOTH))
}
