// The archive for measurement (bench/): the calls of `trial` under the names that C links. No part of what a host is given.
#![tactic(auto)]

ghost use Rattle.std.specs.Prelude.{◌≡◌};
ghost use Rattle.plane.specs.Placed.{BoxInPlaces, Upright};
ghost use Rattle.region.specs.Region.{region_of};
ghost use Rattle.region.specs.Rules.{Keeps};
ghost use Rattle.relation.specs.Relation.{region_box};
ghost use Rattle.trial.specs.Given.{box_with};

#[unsafe(no_mangle)]
pub extern "C" fn trial_check(outline: &[i32], ends: &[u16]) -> u32 {
    trial::trial_check(outline, ends)
}

#[unsafe(no_mangle)]
pub extern "C" fn trial_relation(
    first: &[i32],
    first_ends: &[u16],
    second: &[i32],
    second_ends: &[u16],
) -> u32
    requires { Keeps 4 (region_of first.now first_ends.now) × Keeps 4 (region_of second.now second_ends.now) }
{
    trial::trial_relation(first, first_ends, second, second_ends)
}

#[unsafe(no_mangle)]
pub extern "C" fn trial_seen(
    west: u64,
    south: u64,
    east: u64,
    north: u64,
    own_west: u64,
    own_south: u64,
    own_east: u64,
    own_north: u64,
    outline: &[i32],
    ends: &[u16],
) -> u32
    requires box_in_places { BoxInPlaces (box_with west south east north) × Upright (box_with west south east north) }
    requires keeps { Keeps 4 (region_of outline.now ends.now) × (box_with own_west own_south own_east own_north ≡ region_box (region_of outline.now ends.now)) }
{
    trial::trial_seen(
        west, south, east, north, own_west, own_south, own_east, own_north, outline, ends,
    )
}

#[unsafe(no_mangle)]
pub extern "C" fn trial_pair(
    first: &[i32],
    first_ends: &[u16],
    second: &[i32],
    second_ends: &[u16],
) -> u32 {
    trial::trial_pair(first, first_ends, second, second_ends)
}

#[unsafe(no_mangle)]
pub extern "C" fn trial_cell(
    records: &[u16],
    relations: &[u16],
    primary: u32,
    reference: u32,
) -> u32 {
    trial::trial_cell(records, relations, primary, reference)
}

#[unsafe(no_mangle)]
pub extern "C" fn trial_cells(
    records: &[u16],
    relations: &[u16],
    pairs: &[u16],
    results: &mut [u16],
) -> u32 {
    trial::trial_cells(records, relations, pairs, results)
}

#[unsafe(no_mangle)]
pub extern "C" fn trial_put(
    xs: &mut [i32],
    records: &mut [u16],
    relations: &mut [u16],
    slot: u32,
    outline: &[i32],
    ends: &[u16],
) -> u32 {
    trial::trial_put(xs, records, relations, slot, outline, ends)
}

#[unsafe(no_mangle)]
pub extern "C" fn trial_load(
    xs: &mut [i32],
    records: &mut [u16],
    relations: &mut [u16],
    bytes: &[u8],
) -> u32 {
    trial::trial_load(xs, records, relations, bytes)
}
