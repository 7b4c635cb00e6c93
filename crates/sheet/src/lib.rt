// The calls that change a sheet, which has slots for parcels and keeps every relation. A call that is refused leaves the three lists as they
// were found.
#![tactic(auto)]

ghost use Rattle.std.specs.Prelude.{◌≡◌};
ghost use Rattle.region.specs.Refusals.{number_in};
ghost use Rattle.region.specs.Outline.{drawn_by};
ghost use Rattle.layout.specs.Sheet.{sheet_of};
ghost use Rattle.calls.specs.Changes.{put_number, put, remove_number, remove, clear_number, clear};

use outline::check_region;
use placing::writing::write_parcel;
use region::Outline;
use region::refusals::Refusal;
use storage::lists::{check_lists, clear_lists};
use storage::refused::check_change;

fn check_put(
    xs: &[i32],
    records: &[u16],
    relations: &[u16],
    slot: u16,
    outline: Outline,
) -> Result<(), Refusal>
    ensures { number_in result ≡ put_number (sheet_of xs.now records.now relations.now) slot (drawn_by outline.entry) }
{
    check_change(xs, records, relations, slot)?;
    match check_region(outline) {
        Ok(()) => Ok(()),
        Err(broken) => Err(broken.rule),
    }
}

fn check_remove(xs: &[i32], records: &[u16], relations: &[u16], slot: u16) -> Result<(), Refusal>
    ensures { number_in result ≡ remove_number (sheet_of xs.now records.now relations.now) slot }
{
    let standing = check_change(xs, records, relations, slot)?;
    if standing.is_empty(slot as usize) {
        return Err(Refusal::SlotEmpty);
    }
    Ok(())
}

// The outline into its slot, in place of what stands there.
pub fn put(
    xs: &mut [i32],
    records: &mut [u16],
    relations: &mut [u16],
    slot: u16,
    outline: Outline,
) -> Result<(), Refusal>
    ensures value { number_in result ≡ put_number (sheet_of xs.old records.old relations.old) slot (drawn_by outline.entry) }
    ensures relations_after { sheet_of xs.new records.new relations.new ≡ put (sheet_of xs.old records.old relations.old) slot (drawn_by outline.entry) }
{
    check_put(xs, records, relations, slot, outline)?;
    write_parcel(xs, records, relations, slot as usize, outline);
    Ok(())
}

// What stands in the slot, taken out.
pub fn remove(
    xs: &mut [i32],
    records: &mut [u16],
    relations: &mut [u16],
    slot: u16,
) -> Result<(), Refusal>
    ensures value { number_in result ≡ remove_number (sheet_of xs.old records.old relations.old) slot }
    ensures relations_after { sheet_of xs.new records.new relations.new ≡ remove (sheet_of xs.old records.old relations.old) slot }
{
    check_remove(xs, records, relations, slot)?;
    let nothing = Outline {
        coordinates: &[],
        ends: &[],
    };
    write_parcel(xs, records, relations, slot as usize, nothing);
    Ok(())
}

// Every number to 0, also on a damaged sheet.
pub fn clear(xs: &mut [i32], records: &mut [u16], relations: &mut [u16]) -> Result<(), Refusal>
    ensures value { number_in result ≡ clear_number (sheet_of xs.old records.old relations.old) }
    ensures relations_after { sheet_of xs.new records.new relations.new ≡ clear (sheet_of xs.old records.old relations.old) }
{
    check_lists(xs, records, relations)?;
    clear_lists(xs, records, relations);
    Ok(())
}
