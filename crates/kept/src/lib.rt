// The sheet that the desk keeps, and the request on how much of each of its lists the calls are lent: lend.
#![tactic(auto)]

ghost use Rattle.std.specs.Prelude.{◌≡◌, ◌≤◌, [], ◌∷◌, min, slice_index, take};
ghost use Rattle.kept.specs.declared.TheConstants.{COORDINATES_KEPT, RECORDS_KEPT, RELATIONS_KEPT};

use answers::Reply;
use input::Rest;
use layout::lists::{COORDINATES, RECORDS, RELATIONS};

// The desk keeps each list with a place more than the sheet has, so that lists of a wrong length can be lent.
pub const COORDINATES_KEPT: usize = COORDINATES + 1;

pub const RECORDS_KEPT: usize = RECORDS + 1;

pub const RELATIONS_KEPT: usize = RELATIONS + 1;

// How much of each list the calls are lent.
#[derive(Clone, Copy)]
struct Lent {
    coordinates: usize,
    records: usize,
    relations: usize,
    ghost coordinates_kept: { coordinates ≤ COORDINATES_KEPT },
    ghost records_kept: { records ≤ RECORDS_KEPT },
    ghost relations_kept: { relations ≤ RELATIONS_KEPT },
}

#[derive(Drop)]
pub struct Kept {
    pub coordinates: [i32; COORDINATES_KEPT],
    pub records: [u16; RECORDS_KEPT],
    pub relations: [u16; RELATIONS_KEPT],
    lent: Lent,
}

// The lists that a call is lent.
#[derive(Drop)]
pub struct Lists<'a> {
    pub coordinates: &'a mut [i32],
    pub records: &'a mut [u16],
    pub relations: &'a mut [u16],
}

// The lists that a call is lent which only reads them.
#[derive(Clone, Copy)]
pub struct SharedLists<'a> {
    pub coordinates: &'a [i32],
    pub records: &'a [u16],
    pub relations: &'a [u16],
}

impl Kept {
    // An empty sheet.
    pub fn new() -> Kept {
        Kept {
            coordinates: [0; COORDINATES_KEPT],
            records: [0; RECORDS_KEPT],
            relations: [0; RELATIONS_KEPT],
            lent: Lent {
                coordinates: COORDINATES,
                records: RECORDS,
                relations: RELATIONS,
            },
        }
    }

    // How much of each list is lent.
    pub fn lengths(&self) -> [usize; 3]
        ensures { result ≡ self.now.lent.coordinates ∷ self.now.lent.records ∷ self.now.lent.relations ∷ [] }
    {
        [
            self.lent.coordinates,
            self.lent.records,
            self.lent.relations,
        ]
    }

    // Lends so much of each list, or all of it.
    pub fn lend(&mut self, lengths: [usize; 3])
        ensures coordinates { self.new.lent.coordinates ≡ min (slice_index lengths 0) COORDINATES_KEPT }
        ensures records { self.new.lent.records ≡ min (slice_index lengths 1) RECORDS_KEPT }
        ensures relations { self.new.lent.relations ≡ min (slice_index lengths 2) RELATIONS_KEPT }
    {
        self.lent = Lent {
            coordinates: lengths[0].min(COORDINATES_KEPT),
            records: lengths[1].min(RECORDS_KEPT),
            relations: lengths[2].min(RELATIONS_KEPT),
        };
    }

    // All that is kept of each list, whatever is lent.
    pub fn whole_lists(&mut self) -> Lists<'_>
        ensures coordinates { result.coordinates.now ≡ take COORDINATES_KEPT self.old.coordinates }
        ensures records { result.records.now ≡ take RECORDS_KEPT self.old.records }
        ensures relations { result.relations.now ≡ take RELATIONS_KEPT self.old.relations }
    {
        Lists {
            coordinates: front(&mut self.coordinates, COORDINATES_KEPT),
            records: front(&mut self.records, RECORDS_KEPT),
            relations: front(&mut self.relations, RELATIONS_KEPT),
        }
    }

    pub fn lists(&mut self) -> Lists<'_> {
        let lent = self.lent;
        Lists {
            coordinates: front(&mut self.coordinates, lent.coordinates),
            records: front(&mut self.records, lent.records),
            relations: front(&mut self.relations, lent.relations),
        }
    }

    pub fn shared_whole_lists(&self) -> SharedLists<'_>
        ensures coordinates { result.coordinates.now ≡ self.now.coordinates }
        ensures records { result.records.now ≡ self.now.records }
        ensures relations { result.relations.now ≡ self.now.relations }
    {
        SharedLists {
            coordinates: &self.coordinates[..COORDINATES_KEPT],
            records: &self.records[..RECORDS_KEPT],
            relations: &self.relations[..RELATIONS_KEPT],
        }
    }

    pub fn shared_lists(&self) -> SharedLists<'_>
        ensures coordinates { result.coordinates.now ≡ take self.now.lent.coordinates self.now.coordinates }
        ensures records { result.records.now ≡ take self.now.lent.records self.now.records }
        ensures relations { result.relations.now ≡ take self.now.lent.relations self.now.relations }
    {
        let lent = self.lent;
        SharedLists {
            coordinates: &self.coordinates[..lent.coordinates],
            records: &self.records[..lent.records],
            relations: &self.relations[..lent.relations],
        }
    }
}

// The three lengths to be lent, where no list is longer than what is kept of it.
pub fn lend_reply(mut line: Rest, lent: &mut [usize; 3]) -> Option<Reply> {
    let coordinates = usize::from(line.number::<u16>()?);
    let records = usize::from(line.number::<u16>()?);
    let relations = usize::from(line.last::<u16>()?);
    if COORDINATES_KEPT < coordinates || RECORDS_KEPT < records || RELATIONS_KEPT < relations {
        return None;
    }
    *lent = [coordinates, records, relations];
    Some(Reply::Ok)
}

fn front<T, const N: usize>(list: &mut [T; N], count: usize) -> &mut [T]
    requires { count ≤ N }
    ensures { result.now ≡ take count list.old }
{
    &mut list[..count]
}
