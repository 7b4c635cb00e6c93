// What stands in a slot: its ring count, its ring ends and its coordinates; and what stands in all of them, where the sheet is not damaged.
ghost use Rattle.std.specs.Prelude.{◌≡◌, ◌<◌, length};
ghost use Rattle.region.specs.Outline.{drawn_by};
ghost use Rattle.layout.specs.Sheet.{slots, records_length};
ghost use Rattle.layout.specs.Slots.{rings_in, empty_in, ends_in, coordinates_in, region_in};
ghost use Rattle.layout.specs.Steps.{Counted, Outlined, Whole};
ghost use Rattle.layout.proofs.Whole.{whole_prop};

use layout::lists::{RECORD, ROOM};
use outline::last_end;
use region::Outline;

pub fn ring_count(records: &[u16], slot: usize) -> usize
    requires { (length records.now ≡ records_length) × (slot < slots) }
    ensures { result ≡ rings_in records.now slot }
{
    let at = RECORD * slot;
    records[at] as usize
}

pub fn is_empty(records: &[u16], slot: usize) -> bool
    requires { (length records.now ≡ records_length) × (slot < slots) }
    ensures { result ≡ empty_in records.now slot }
{
    ring_count(records, slot) == 0
}

// The ring ends of a slot, as far as they are used.
pub fn ends_at<'a>(records: &'a [u16], slot: usize) -> &'a [u16]
    requires { Counted records.now slot }
    ensures { result.now ≡ ends_in records.now slot }
{
    let from = RECORD * slot + 1;
    let to = from + ring_count(records, slot);
    &records[from..to]
}

// The coordinates of the vertices that a slot uses.
pub fn outline_at<'a>(xs: &'a [i32], records: &[u16], slot: usize) -> &'a [i32]
    requires { Outlined xs.now records.now slot }
    ensures { result.now ≡ coordinates_in xs.now records.now slot }
{
    let from = ROOM * slot;
    let to = from + 2 * last_end(ends_at(records, slot));
    &xs[from..to]
}

// What stands on a sheet that is not damaged: the two lists in which the outlines lie.
#[derive(Clone, Copy)]
pub struct Standing<'a> {
    pub xs: &'a [i32],
    pub records: &'a [u16],
    pub ghost whole: { Whole xs.now records.now } by { whole_prop xs.now records.now },
}

impl<'a> Standing<'a> {
    pub fn ring_count(&self, slot: usize) -> usize
        requires { slot < slots }
        ensures { result ≡ rings_in self.now.records.now slot }
    {
        ring_count(self.records, slot)
    }

    pub fn is_empty(&self, slot: usize) -> bool
        requires { slot < slots }
        ensures { result ≡ empty_in self.now.records.now slot }
    {
        is_empty(self.records, slot)
    }

    pub fn ends(&self, slot: usize) -> &'a [u16]
        requires { slot < slots }
        ensures { result.now ≡ ends_in self.now.records.now slot }
    {
        ends_at(self.records, slot)
    }

    pub fn outline(&self, slot: usize) -> Outline<'a>
        requires { slot < slots }
        ensures { drawn_by result ≡ region_in self.now.xs.now self.now.records.now slot }
    {
        Outline {
            coordinates: outline_at(self.xs, self.records, slot),
            ends: self.ends(slot),
        }
    }
}
