// The requests on the numbers in the sheet's lists, whatever they stand for: poke, sheet.
#![tactic(auto)]

use answers::{Page, Reply};
use input::{Number, Rest};
use kept::{Lists, SharedLists};
use words::COLON;

const EQUALS: u8 = b'=';

pub fn poke_reply(mut line: Rest, lists: Lists) -> Option<Reply> {
    let Lists {
        coordinates,
        records,
        relations,
    } = lists;
    let list: u16 = line.number()?;
    let place: u16 = line.number()?;
    match list {
        0 => poke(line, coordinates, place),
        1 => poke(line, records, place),
        2 => poke(line, relations, place),
        _ => None,
    }
}

fn poke<T: Number>(mut line: Rest, list: &mut [T], place: u16) -> Option<Reply> {
    let value = line.last()?;
    *list.get_mut(usize::from(place))? = value;
    Some(Reply::Ok)
}

pub fn sheet_reply(line: Rest, lists: SharedLists, page: &mut Page) -> Option<Reply> {
    line.end()?;
    put_list(page, 0, lists.coordinates);
    put_list(page, 1, lists.records);
    put_list(page, 2, lists.relations);
    Some(Reply::Written)
}

// The numbers of a list that are not 0, as `L:I=V`.
fn put_list<T: Copy + Into<i32>>(page: &mut Page, name: u64, list: &[T]) {
    for (place, value) in list.iter().enumerate() {
        let value: i32 = (*value).into();
        if value != 0 {
            page.put_gap();
            page.put_natural(name);
            page.put_byte(COLON);
            page.put_natural(place as u64);
            page.put_byte(EQUALS);
            page.put_integer(value);
        }
    }
}
