// The three lists: rule 11, and every number to 0.
ghost use Rattle.std.specs.Prelude.{◌≡◌};
ghost use Rattle.region.specs.declared.refusals.Refusal.TheVariants.{SheetLists};
ghost use Rattle.region.specs.Refusals.{number_in, number_if};
ghost use Rattle.layout.specs.Sheet.{sheet_of, RightLists, wrong_tables, wrong_lists};
ghost use Rattle.layout.specs.Layout.{blank};

use layout::lists::{COORDINATES, RECORDS, RELATIONS};
use region::refusals::Refusal;

// Rule 11 for a reading, which is lent two of the lists.
pub fn wrong_tables(records: &[u16], relations: &[u16]) -> bool
    ensures { result ≡ wrong_tables records.now relations.now }
{
    if records.len() != RECORDS {
        return true;
    }
    relations.len() != RELATIONS
}

// Rule 11.
pub fn wrong_lists(xs: &[i32], records: &[u16], relations: &[u16]) -> bool
    ensures { result ≡ wrong_lists (sheet_of xs.now records.now relations.now) }
{
    if xs.len() != COORDINATES {
        return true;
    }
    wrong_tables(records, relations)
}

// 11, where the lists break it.
pub fn check_lists(xs: &[i32], records: &[u16], relations: &[u16]) -> Result<(), Refusal>
    ensures { number_in result ≡ number_if (wrong_lists (sheet_of xs.now records.now relations.now)) SheetLists }
{
    if wrong_lists(xs, records, relations) {
        return Err(Refusal::SheetLists);
    }
    Ok(())
}

// Every number to 0.
pub fn clear_lists(xs: &mut [i32], records: &mut [u16], relations: &mut [u16])
    requires { RightLists (sheet_of xs.old records.old relations.old) }
    ensures { sheet_of xs.new records.new relations.new ≡ blank }
{
    xs.fill(0);
    records.fill(0);
    relations.fill(0);
}
