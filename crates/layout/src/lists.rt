// The lists in numbers.
//   SLOTS, LAST_SLOT                   how many slots there are, and the highest slot number
//   ROOM, RECORD                       how many coordinates, and how many numbers of a record, belong to a slot
//   COORDINATES, RECORDS, RELATIONS    how long the three lists are
//   SELF_CELL                          the cell of a parcel with itself: no tile
pub const SLOTS: usize = 32;

pub const LAST_SLOT: u16 = 31;

pub const ROOM: usize = 128;

pub const RECORD: usize = 9;

pub const COORDINATES: usize = 4096;

pub const RECORDS: usize = 288;

pub const RELATIONS: usize = 1024;

pub const SELF_CELL: u16 = 0;
