// The requests on cards and the sheet: load, write.
#![tactic(auto)]

use answers::{BEFORE, Page, Reply};
use calls::number_of;
use input::Rest;
use kept::{Lists, SharedLists};

pub fn load_reply(mut line: Rest, lists: Lists) -> Option<Reply> {
    let mut bytes = [0u8; 32768];
    let card = line.last_bytes(&mut bytes)?;
    let Lists {
        coordinates,
        records,
        relations,
    } = lists;
    Some(Reply::Number(number_of(loading::load(coordinates, records, relations, card))))
}

// Writes the card into a buffer of the length that the line says, and answers the number, the card's length and the whole buffer.
pub fn write_reply(mut line: Rest, lists: SharedLists, page: &mut Page) -> Option<Reply> {
    let size: u16 = line.last()?;
    let mut buffer = [BEFORE; 20000];
    let buffer = buffer.get_mut(..usize::from(size))?;
    let SharedLists {
        coordinates,
        records,
        relations,
    } = lists;
    let written = writing::write(coordinates, records, relations, buffer);
    let (number, length) = writing::number_and_length(written);
    page.put_natural(u64::from(number));
    page.put_number(length as u64);
    page.put_bytes(buffer);
    Some(Reply::Written)
}
