// The readings of a sheet, which change nothing of it: a cell, a row, a list of pairs (`several`), and how many tiles a relation has.
#![tactic(auto)]

ghost use Rattle.std.specs.Prelude.{◌≡◌, ◌+◌, ◌*◌};
ghost use Rattle.region.specs.Refusals.{number_in};
ghost use Rattle.calls.specs.Readings.{read_number, read_value, reading_in, reading_of, reading_value, row_of, row_start, tile_count};

use layout::lists::LAST_SLOT;
use region::refusals::Refusal;
use storage::table::Tables;

pub mod several;

// What refuses the reading of a cell from lists of their lengths: 8, then 9.
fn check_cell(tables: &Tables, primary: u16, reference: u16) -> Result<(), Refusal>
    ensures { number_in result ≡ read_number tables.now.records.now tables.now.relations.now primary reference }
{
    if LAST_SLOT < primary {
        return Err(Refusal::SlotNumber);
    }
    if LAST_SLOT < reference {
        return Err(Refusal::SlotNumber);
    }
    if tables.is_empty(primary as usize) {
        return Err(Refusal::SlotEmpty);
    }
    if tables.is_empty(reference as usize) {
        return Err(Refusal::SlotEmpty);
    }
    Ok(())
}

// The cell of two slots, as it stands in them.
fn cell_of(tables: &Tables, primary: u16, reference: u16) -> Result<u16, Refusal>
    ensures { reading_in result ≡ reading_of tables.now.records.now tables.now.relations.now primary reference }
{
    check_cell(tables, primary, reference)?;
    Ok(tables.cell(primary as usize, reference as usize))
}

// The cell of two slots, as it stands.
pub fn read_cell(
    records: &[u16],
    relations: &[u16],
    primary: u16,
    reference: u16,
) -> Result<u16, Refusal>
    ensures value { reading_in result ≡ reading_of records.now relations.now primary reference }
    ensures result_value { number_in result ≡ read_number records.now relations.now primary reference }
    ensures result_value_2 { reading_value (reading_in result) ≡ read_value records.now relations.now primary reference }
{
    let tables = Tables::of(records, relations)?;
    cell_of(&tables, primary, reference)
}

// The row of a slot: that part of the lent table, or none of it where number 11, 8 or 9 applies.
pub fn row<'a>(records: &[u16], relations: &'a [u16], slot: u16) -> &'a [u16]
    ensures result_value { result.now ≡ row_of records.now relations.now slot }
    ensures ref_ptr_value { result.ref_ptr ≡ (relations.entry.ref_ptr.0, row_start records.now relations.now slot * 2 + relations.entry.ref_ptr.1) }
{
    let Ok(tables) = Tables::of(records, relations) else {
        return &relations[0..0];
    };
    let Ok(()) = check_cell(&tables, slot, slot) else {
        return &relations[0..0];
    };
    tables.row(slot as usize)
}

// How many of the nine tiles a relation has.
pub fn tiles(relation: u16) -> u16
    ensures { result ≡ tile_count relation }
{
    let low = relation % 512;
    u16::count_ones(low) as u16
}
