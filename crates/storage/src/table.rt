// The relation table, as it stands; and the two lists that a reading is lent, the table and the records.
ghost use Rattle.std.specs.Prelude.{◌≡◌, ◌+◌, ◌*◌, ◌<◌, length, IfOk};
ghost use Rattle.region.specs.declared.refusals.Refusal.TheVariants.{SheetLists};
ghost use Rattle.region.specs.Refusals.{number_in, number_if};
ghost use Rattle.layout.specs.Sheet.{slots, relations_length, RightTables, wrong_tables};
ghost use Rattle.layout.specs.Slots.{empty_in, cell_in, row_in, row_place};

use crate::lists::wrong_tables;
use crate::slots::is_empty;
use layout::lists::SLOTS;
use region::refusals::Refusal;

// The cell of two slots.
pub fn cell_in(relations: &[u16], primary: usize, reference: usize) -> u16
    requires { (length relations.now ≡ relations_length) × (primary < slots) × (reference < slots) }
    ensures { result ≡ cell_in relations.now primary reference }
{
    relations[SLOTS * primary + reference]
}

// The row of a slot: that part of the lent table.
pub fn row_in<'a>(relations: &'a [u16], slot: usize) -> &'a [u16]
    requires { (length relations.now ≡ relations_length) × (slot < slots) }
    ensures result_value { result.now ≡ row_in relations.now slot }
    ensures ref_ptr_value { result.ref_ptr ≡ (relations.entry.ref_ptr.0, row_place slot * 2 + relations.entry.ref_ptr.1) }
{
    let from = SLOTS * slot;
    &relations[from..from + SLOTS]
}

#[derive(Clone, Copy)]
pub struct Tables<'r, 'a> {
    pub records: &'r [u16],
    pub relations: &'a [u16],
    pub ghost right: { RightTables records.now relations.now },
}

impl<'r, 'a> Tables<'r, 'a> {
    // The lists that are lent, or 11.
    pub fn of(records: &'r [u16], relations: &'a [u16]) -> Result<Tables<'r, 'a>, Refusal>
        ensures refusal { number_in result ≡ number_if (wrong_tables records.now relations.now) SheetLists }
        ensures tables { IfOk result (λ t. (t.records ≡ records.entry) × (t.relations ≡ relations.entry)) }
    {
        if wrong_tables(records, relations) {
            return Err(Refusal::SheetLists);
        }
        Ok(Tables { records, relations })
    }

    pub fn is_empty(&self, slot: usize) -> bool
        requires { slot < slots }
        ensures { result ≡ empty_in self.now.records.now slot }
    {
        is_empty(self.records, slot)
    }

    pub fn cell(&self, primary: usize, reference: usize) -> u16
        requires { (primary < slots) × (reference < slots) }
        ensures { result ≡ cell_in self.now.relations.now primary reference }
    {
        cell_in(self.relations, primary, reference)
    }

    pub fn row(&self, slot: usize) -> &'a [u16]
        requires { slot < slots }
        ensures result_value { result.now ≡ row_in self.now.relations.now slot }
        ensures ref_ptr_value { result.ref_ptr ≡ (self.now.relations.ref_ptr.0, row_place slot * 2 + self.now.relations.ref_ptr.1) }
    {
        row_in(self.relations, slot)
    }
}
