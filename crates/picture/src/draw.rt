// Which picture it is.
ghost use Rattle.std.specs.Prelude.{◌≡◌};

use contents::GoodCard;
use field::entry_of;
use map::put_map;
use notice::{SlotFault, put_notice, put_refusal};
use sight::put_sight;
use std::env::FillError;
use std::rt::Env;
use svg::Page;
use words::Word;

// Slots are numbers below this.
const SLOTS: u16 = 32;

// Whether there is an argument i. Argument 0 is the program's own name.
fn has_argument(rt: &impl Env, i: usize) -> bool {
    !matches!(rt.arg(i, &mut []), Err(FillError::NotPresent))
}

// The slot that argument i names. Any slot is written in at most two digits; zeros before them are let pass.
fn slot_asked(rt: &impl Env, i: usize) -> Result<u16, SlotFault> {
    let mut word = [0u8; 16];
    let n = rt.arg(i, &mut word).unwrap_or(0);
    match words::read_last_natural(&word[..n], 0) {
        Some(Word { value, next: _ }) if value < SLOTS => Ok(value),
        _ => Err(SlotFault::NoSlot),
    }
}

// The two slots that the arguments name: the parcel in the first is seen from the parcel in the second.
fn slots_asked(rt: &impl Env) -> Result<(u16, u16), SlotFault> {
    if !has_argument(rt, 2) || has_argument(rt, 3) {
        return Err(SlotFault::NotTwo);
    }
    let primary = slot_asked(rt, 1)?;
    let reference = slot_asked(rt, 2)?;
    if primary == reference {
        return Err(SlotFault::Same);
    }
    Ok((primary, reference))
}

fn draw_two(card: &GoodCard, page: &mut Page, rt: &impl Env) -> Result<(), SlotFault>
    ensures { page.new.out.ghost_name ≡ page.old.out.ghost_name }
{
    let (primary, reference) = slots_asked(rt)?;
    let j = entry_of(card, primary).ok_or(SlotFault::Empty)?;
    let k = entry_of(card, reference).ok_or(SlotFault::Empty)?;
    put_sight(page, card, j, k);
    Ok(())
}

// A card that is refused is told before anything is said of the slots.
pub fn draw(rt: &impl Env, card: &[u8], page: &mut Page)
    ensures { page.new.out.ghost_name ≡ page.old.out.ghost_name }
{
    match GoodCard::read(card) {
        Err(refusal) => put_refusal(page, refusal),
        Ok(good) if !has_argument(rt, 1) => put_map(page, &good),
        Ok(good) => {
            if let Err(fault) = draw_two(&good, page, rt) {
                put_notice(page, fault);
            }
        }
    }
}
