// A picture that says why there is no map: the number that refuses a card, what it means and what helps (docs/NUMBERS.md); or what is wrong
// with the slots that were asked for.
#![tactic(auto)]

ghost use Rattle.std.specs.Prelude.{◌≡◌};

use region::refusals::Refusal;
use std::fmt;
use svg::{Page, put_foot, put_head};

const HEIGHT: u16 = 2600;

const DESCRIPTION: &str = "There is no map; the text says why, and what helps.";

// What a refusal says of a card, and what helps.
const HELP: [(Refusal, &str, &str); 9] = [
    (
        Refusal::RingLength,
        "A ring has fewer than 3 vertices, or the ring ends do not rise.",
        "Draw the ring anew.",
    ),
    (
        Refusal::ListSize,
        "A parcel has more than 64 vertices.",
        "Draw it as two parcels, in two slots.",
    ),
    (
        Refusal::CoordinateRange,
        "A coordinate lies outside -1,000,000 to 1,000,000.",
        "The map's corner, or its unit, is wrong.",
    ),
    (
        Refusal::VertexRepeated,
        "Two vertices that follow each other are the same.",
        "Leave one out; the first is not repeated at the end.",
    ),
    (
        Refusal::EdgesMeet,
        "A ring crosses or touches itself, or turns back on itself.",
        "Move a vertex; a figure of eight is two rings.",
    ),
    (
        Refusal::NotClockwise,
        "A ring does not run clockwise.",
        "Enter its vertices the other way round.",
    ),
    (
        Refusal::CardHeader,
        "The header counts or places something wrongly, or the length is wrong.",
        "The card is cut off, or it is no card.",
    ),
    (
        Refusal::CardParcels,
        "Slots do not rise from 0 to 31, or rings do not add up.",
        "The card was made wrongly.",
    ),
    (
        Refusal::CardVertices,
        "The vertices do not add up.",
        "The card was made wrongly.",
    ),
];

fn put_help(page: &mut Page, number: u16)
    ensures { page.new.out.ghost_name ≡ page.old.out.ghost_name }
{
    for (refusal, says, helps) in HELP {
        if u16::from(refusal) == number {
            write!(
                page,
                "<text x='400' y='1350' >{says}</text>\n<text x='400' y='1850' >{helps}</text>\n"
            );
            return;
        }
    }
    write!(
        page,
        "<text x='400' y='1350' >docs/NUMBERS.md says what the number means.</text>\n"
    );
}

// The picture of a card that is refused: with a refusal, or with its number. Any number has a picture.
pub fn put_refusal<N: Into<u16>>(page: &mut Page, refusal: N)
    ensures { page.new.out.ghost_name ≡ page.old.out.ghost_name }
{
    let number: u16 = refusal.into();
    put_head(page, HEIGHT, "A card that is refused", DESCRIPTION);
    write!(
        page,
        "<text x='400' y='750' font-size='360' font-weight='bold'>This card is refused: number {number}</text>\n"
    );
    put_help(page, number);
    put_foot(page);
}

// What is wrong with the slots that were asked for.
#[derive(Clone, Copy)]
pub enum SlotFault {
    NotTwo,
    NoSlot,
    Empty,
    Same,
}

impl fmt::Display for SlotFault {
    fn fmt<W: fmt::Write>(&self, f: &mut fmt::Formatter<W>) -> fmt::Result {
        f.write_str(match self {
            SlotFault::NotTwo => "Give two slots, or none.",
            SlotFault::NoSlot => "A slot is a number from 0 to 31.",
            SlotFault::Empty => "Nothing stands in one of these slots.",
            SlotFault::Same => "Give two different slots.",
        })
    }
}

// The picture for slots that cannot be shown.
pub fn put_notice(page: &mut Page, fault: SlotFault)
    ensures { page.new.out.ghost_name ≡ page.old.out.ghost_name }
{
    put_head(page, HEIGHT, "Slots that cannot be shown", DESCRIPTION);
    write!(
        page,
        "<text x='400' y='750' font-size='360' font-weight='bold'>{fault}</text>\n\
        <text x='400' y='1350' >Without slots the whole map is drawn. With two slots, as 0 3,</text>\n\
        <text x='400' y='1850' >the parcel in the first is seen from the parcel in the second.</text>\n"
    );
    put_foot(page);
}
