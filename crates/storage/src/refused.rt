// Rule 12, and the refusals that calls on a sheet share, in their order.
ghost use Rattle.std.specs.Prelude.{◌≡◌, ◌<◌, IfOk};
ghost use Rattle.plane.specs.Folds.{any_to};
ghost use Rattle.region.specs.declared.refusals.Refusal.TheVariants.{SheetDamaged};
ghost use Rattle.region.specs.Refusals.{number_in, number_if};
ghost use Rattle.layout.specs.Sheet.{sheet_of, slots};
ghost use Rattle.layout.specs.Damage.{damaged_at};
ghost use Rattle.layout.specs.Changes.{change_number, whole_number};
ghost use Rattle.layout.specs.Steps.{SlotLists};

use crate::lists::check_lists;
use crate::slots::{Standing, ends_at, outline_at, ring_count};
use layout::lists::{LAST_SLOT, SLOTS};
use outline::{first_short, last_end, some_outside};
use region::refusals::Refusal;
use region::{MOST_RINGS, MOST_VERTICES};

// Ring count, ends, last end, coordinates: each is looked at only where those before it are good, so nothing is read past its room.
fn slot_damaged(xs: &[i32], records: &[u16], slot: usize) -> bool
    requires { SlotLists xs.now records.now × (slot < slots) }
    ensures { result ≡ damaged_at xs.now records.now slot }
{
    let count = ring_count(records, slot);
    if count == 0 {
        return false;
    }
    if MOST_RINGS < count {
        return true;
    }
    let ends = ends_at(records, slot);
    if first_short(ends).is_some() {
        return true;
    }
    if MOST_VERTICES < last_end(ends) {
        return true;
    }
    some_outside(outline_at(xs, records, slot))
}

// 12; else what stands.
fn check_slots<'a>(xs: &'a [i32], records: &'a [u16]) -> Result<Standing<'a>, Refusal>
    requires { SlotLists xs.now records.now }
    ensures refusal { number_in result ≡ number_if (any_to (damaged_at xs.now records.now) slots) SheetDamaged }
    ensures standing { IfOk result (λ s. (s.xs.now ≡ xs.now) × (s.records.now ≡ records.now)) }
{
    for i in 0..SLOTS {
        if slot_damaged(xs, records, i) {
            return Err(Refusal::SheetDamaged);
        }
    }
    Ok(Standing { xs, records })
}

// 11, then 12; else what stands.
pub fn check_whole<'a>(
    xs: &'a [i32],
    records: &'a [u16],
    relations: &[u16],
) -> Result<Standing<'a>, Refusal>
    ensures refusal { number_in result ≡ whole_number (sheet_of xs.now records.now relations.now) }
    ensures standing { IfOk result (λ s. (s.xs.now ≡ xs.now) × (s.records.now ≡ records.now)) }
{
    check_lists(xs, records, relations)?;
    check_slots(xs, records)
}

// 11, 8, then 12; else what stands.
pub fn check_change<'a>(
    xs: &'a [i32],
    records: &'a [u16],
    relations: &[u16],
    slot: u16,
) -> Result<Standing<'a>, Refusal>
    ensures refusal { number_in result ≡ change_number (sheet_of xs.now records.now relations.now) slot }
    ensures standing { IfOk result (λ s. (s.xs.now ≡ xs.now) × (s.records.now ≡ records.now)) }
{
    check_lists(xs, records, relations)?;
    if LAST_SLOT < slot {
        return Err(Refusal::SlotNumber);
    }
    check_slots(xs, records)
}
