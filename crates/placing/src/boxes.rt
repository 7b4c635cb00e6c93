// The boxes of what stands, kept beside the sheet while parcels are written, so that each is found once and not for every cell.
//   NO_BOXES      the list before any box is found
//   find_box      the box of what stands in a slot, written into the list
//   find_boxes    the same for every slot
ghost use Rattle.std.specs.Prelude.{◌≡◌, ◌<◌};
ghost use Rattle.layout.specs.Sheet.{slots};
ghost use Rattle.layout.specs.BoxList.{box_found, Boxed};

use layout::lists::SLOTS;
use plane::Box;
use relation::region_box;
use storage::slots::Standing;

// The list before any box is found.
pub const NO_BOXES: [Box; SLOTS] = [Box {
    west: 0,
    south: 0,
    east: 0,
    north: 0,
}; SLOTS];

// An empty slot keeps the box that it has: nobody reads it.
pub fn find_box(standing: &Standing, boxes: &mut [Box; SLOTS], slot: usize)
    requires { slot < slots }
    ensures { boxes.new ≡ box_found standing.now.xs.now standing.now.records.now slot boxes.old }
{
    if standing.is_empty(slot) {
        return;
    }
    boxes[slot] = region_box(standing.outline(slot));
}

pub fn find_boxes(standing: &Standing, boxes: &mut [Box; SLOTS])
    ensures { Boxed boxes.new standing.now.xs.now standing.now.records.now }
{
    for k in 0..SLOTS {
        find_box(standing, boxes, k);
    }
}
