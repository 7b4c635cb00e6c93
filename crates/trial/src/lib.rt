// The library's work in calls of numbers and lists, for measurement alone (bench/): no part of what a host is given. `trial_c` hands them to
// C under the same names.
// The relations ask of their caller what the library's own callers are proved to keep; the others take any input.
#![tactic(auto)]

ghost use Rattle.std.specs.Prelude.{◌≡◌};
ghost use Rattle.plane.specs.Placed.{BoxInPlaces, Upright};
ghost use Rattle.region.specs.Region.{region_of};
ghost use Rattle.region.specs.Rules.{Keeps};
ghost use Rattle.relation.specs.Relation.{region_box};
ghost use Rattle.trial.specs.Given.{box_with};

use calls::number_of;
use outline::check_region;
use pair::{pair_of, report_words};
use plane::Box;
use reading::read_cell;
use reading::several::read_cells;
use region::Outline;
use relation::{region_box, region_seen};

// The number and 65,536 times the ring of a refusal, 0 where the region is accepted.
pub fn trial_check(outline: &[i32], ends: &[u16]) -> u32 {
    let outline = Outline {
        coordinates: outline,
        ends,
    };
    match check_region(outline) {
        Ok(()) => 0,
        Err(broken) => u16::from(broken.rule) as u32 + 65536 * broken.ring as u32,
    }
}

// The relation of the first region to the second, and 65,536 times the pieces of the first. Both boxes are found here.
pub fn trial_relation(first: &[i32], first_ends: &[u16], second: &[i32], second_ends: &[u16]) -> u32
    requires { Keeps 4 (region_of first.now first_ends.now) × Keeps 4 (region_of second.now second_ends.now) }
{
    let first = Outline {
        coordinates: first,
        ends: first_ends,
    };
    let second = Outline {
        coordinates: second,
        ends: second_ends,
    };
    let own = region_box(first);
    let b = region_box(second);
    let seen = region_seen(b, own, first);
    seen.set as u32 + 65536 * seen.pieces as u32
}

// The same where both boxes are at hand: the relation of a region to the box with the first four lines; the next four are its own box's.
pub fn trial_seen(
    west: u64,
    south: u64,
    east: u64,
    north: u64,
    own_west: u64,
    own_south: u64,
    own_east: u64,
    own_north: u64,
    outline: &[i32],
    ends: &[u16],
) -> u32
    requires box_in_places { BoxInPlaces (box_with west south east north) × Upright (box_with west south east north) }
    requires keeps { Keeps 4 (region_of outline.now ends.now) × (box_with own_west own_south own_east own_north ≡ region_box (region_of outline.now ends.now)) }
{
    let b = Box {
        west,
        south,
        east,
        north,
    };
    let own = Box {
        west: own_west,
        south: own_south,
        east: own_east,
        north: own_north,
    };
    let outline = Outline {
        coordinates: outline,
        ends,
    };
    let seen = region_seen(b, own, outline);
    seen.set as u32 + 65536 * seen.pieces as u32
}

// The relation of the first region to the second and 65,536 times that of the second to the first; 0 beside a refusal.
pub fn trial_pair(first: &[i32], first_ends: &[u16], second: &[i32], second_ends: &[u16]) -> u32 {
    let first = Outline {
        coordinates: first,
        ends: first_ends,
    };
    let second = Outline {
        coordinates: second,
        ends: second_ends,
    };
    let words = report_words(pair_of(first, second));
    words[3] as u32 + 65536 * words[4] as u32
}

// What is written of a reading of one cell, and the number of a list of pairs.
pub fn trial_cell(records: &[u16], relations: &[u16], primary: u32, reference: u32) -> u32 {
    let p = (primary % 65536) as u16;
    let q = (reference % 65536) as u16;
    match read_cell(records, relations, p, q) {
        Ok(relation) => relation as u32,
        Err(refusal) => 1000 + u16::from(refusal) as u32,
    }
}

pub fn trial_cells(records: &[u16], relations: &[u16], pairs: &[u16], results: &mut [u16]) -> u32 {
    number_of(read_cells(records, relations, pairs, results)) as u32
}

// A put, and a load of a card.
pub fn trial_put(
    xs: &mut [i32],
    records: &mut [u16],
    relations: &mut [u16],
    slot: u32,
    outline: &[i32],
    ends: &[u16],
) -> u32 {
    let s = (slot % 65536) as u16;
    let outline = Outline {
        coordinates: outline,
        ends,
    };
    number_of(sheet::put(xs, records, relations, s, outline)) as u32
}

pub fn trial_load(xs: &mut [i32], records: &mut [u16], relations: &mut [u16], bytes: &[u8]) -> u32 {
    number_of(loading::load(xs, records, relations, bytes)) as u32
}
