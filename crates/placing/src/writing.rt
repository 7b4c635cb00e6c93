// A parcel into its slot: its room, its record, its row and its column.
//   write_parcel    with every box found first
//   write_among     with the boxes of what stands at hand, for one parcel after another
ghost use Rattle.std.specs.Prelude.{◌≡◌, ◌+◌, ◌*◌, ◌≤◌, ◌<◌, pos, length, get_or};
ghost use Rattle.plane.specs.Folds.{turns};
ghost use Rattle.plane.specs.Lists.{stores};
ghost use Rattle.region.specs.Region.{most_rings};
ghost use Rattle.region.specs.Outline.{drawn_by};
ghost use Rattle.layout.specs.Sheet.{sheet_of, slots, room, record_length, coordinates_length, records_length, relations_length};
ghost use Rattle.layout.specs.Layout.{record_number};
ghost use Rattle.layout.specs.Changes.{with_parcel};
ghost use Rattle.layout.specs.Steps.{Ready, parcel_of, cell_for, crossed};
ghost use Rattle.layout.specs.BoxList.{Boxed};

use crate::boxes::{NO_BOXES, find_box, find_boxes};
use layout::lists::{RECORD, ROOM, SELF_CELL, SLOTS};
use plane::Box;
use region::Outline;
use relation::region_seen;
use storage::slots::Standing;

// The coordinates into the room of their slot, and zeros after them.
fn write_room(xs: &mut [i32], slot: usize, outline: &[i32])
    requires { (length xs.old ≡ coordinates_length) × (slot < slots) × (length outline.now ≤ room) }
    ensures { xs.new ≡ stores (λ k. room * slot + k) (λ k. get_or outline.now k (pos 0)) room xs.old }
{
    let from = ROOM * slot;
    let to = from + outline.len();
    xs[from..to].copy_from_slice(outline);
    xs[to..from + ROOM].fill(0);
}

// The ring count, the ends, and zeros after them.
fn write_record(records: &mut [u16], slot: usize, ends: &[u16])
    requires { (length records.old ≡ records_length) × (slot < slots) × (length ends.now ≤ most_rings) }
    ensures { records.new ≡ stores (λ k. record_length * slot + k) (record_number ends.now) record_length records.old }
{
    let at = RECORD * slot;
    let from = at + 1;
    let to = from + ends.len();
    records[at] = ends.len() as u16;
    records[from..to].copy_from_slice(ends);
    records[to..at + RECORD].fill(0);
}

// The cell that belongs to two slots.
fn cell_for(standing: &Standing, boxes: &[Box; SLOTS], primary: usize, reference: usize) -> u16
    requires { Boxed boxes.now standing.now.xs.now standing.now.records.now × (primary < slots) × (reference < slots) }
    ensures { result ≡ cell_for standing.now.xs.now standing.now.records.now primary reference }
{
    if standing.is_empty(primary) {
        return 0;
    }
    if standing.is_empty(reference) {
        return 0;
    }
    if primary == reference {
        return SELF_CELL;
    }
    let own = boxes[primary];
    let b = boxes[reference];
    let seen = region_seen(b, own, standing.outline(primary));
    seen.set
}

// The cells of two slots, each way round.
fn relate_one(
    standing: &Standing,
    boxes: &[Box; SLOTS],
    relations: &mut [u16],
    slot: usize,
    k: usize,
)
    requires { Boxed boxes.now standing.now.xs.now standing.now.records.now × (length relations.old ≡ relations_length) × (slot < slots) × (k < slots) }
    ensures { relations.new ≡ crossed (cell_for standing.now.xs.now standing.now.records.now) slot k relations.old }
{
    let row = cell_for(standing, boxes, slot, k);
    let column = cell_for(standing, boxes, k, slot);
    let i = SLOTS * slot + k;
    relations[i] = row;
    let j = SLOTS * k + slot;
    relations[j] = column;
}

// The row and the column of a slot.
fn relate(standing: &Standing, boxes: &[Box; SLOTS], relations: &mut [u16], slot: usize)
    requires { Boxed boxes.now standing.now.xs.now standing.now.records.now × (length relations.old ≡ relations_length) × (slot < slots) }
    ensures { relations.new ≡ turns (crossed (cell_for standing.now.xs.now standing.now.records.now) slot) slots relations.old }
{
    for k in 0..SLOTS {
        relate_one(standing, boxes, relations, slot, k);
    }
}

// An outline, or nothing where both lists are empty: its room, its record, its row and its column. The boxes of what stands are at hand,
// and are then those of what stands with it.
pub fn write_among(
    xs: &mut [i32],
    records: &mut [u16],
    relations: &mut [u16],
    boxes: &mut [Box; SLOTS],
    slot: usize,
    outline: Outline,
)
    requires { Ready (sheet_of xs.old records.old relations.old) slot (parcel_of (drawn_by outline)) × Boxed boxes.old xs.old records.old }
    ensures relations_after { sheet_of xs.new records.new relations.new ≡ with_parcel (sheet_of xs.old records.old relations.old) slot (parcel_of (drawn_by outline.entry)) }
    ensures boxed { Boxed boxes.new xs.new records.new }
{
    write_room(xs, slot, outline.coordinates);
    write_record(records, slot, outline.ends);
    let standing = Standing { xs, records };
    find_box(&standing, boxes, slot);
    relate(&standing, boxes, relations, slot);
}

// The same where no box is at hand: each is found once.
pub fn write_parcel(
    xs: &mut [i32],
    records: &mut [u16],
    relations: &mut [u16],
    slot: usize,
    outline: Outline,
)
    requires { Ready (sheet_of xs.old records.old relations.old) slot (parcel_of (drawn_by outline)) }
    ensures { sheet_of xs.new records.new relations.new ≡ with_parcel (sheet_of xs.old records.old relations.old) slot (parcel_of (drawn_by outline.entry)) }
{
    let mut boxes = NO_BOXES;
    find_boxes(&Standing { xs, records }, &mut boxes);
    write_among(xs, records, relations, &mut boxes, slot, outline);
}
