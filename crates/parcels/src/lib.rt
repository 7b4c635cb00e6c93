// The requests on the parcels of the sheet and on a relation: put, remove, clear, cell, cells, row, tiles.
#![tactic(auto)]

use answers::{BEFORE_NUMBER, Page, Reply};
use calls::number_of;
use input::Rest;
use kept::{Lists, SharedLists};
use reading::several;

pub fn put_reply(mut line: Rest, lists: Lists) -> Option<Reply> {
    let slot = line.number()?;
    let mut coordinates = [0i32; 1024];
    let mut ends = [0u16; 64];
    let outline = line.outline(&mut coordinates, &mut ends)?;
    line.end()?;
    let Lists {
        coordinates: xs,
        records,
        relations,
    } = lists;
    Some(Reply::Number(number_of(sheet::put(xs, records, relations, slot, outline))))
}

pub fn remove_reply(mut line: Rest, lists: Lists) -> Option<Reply> {
    let slot = line.last()?;
    let Lists {
        coordinates,
        records,
        relations,
    } = lists;
    Some(Reply::Number(number_of(sheet::remove(coordinates, records, relations, slot))))
}

pub fn clear_reply(line: Rest, lists: Lists) -> Option<Reply> {
    line.end()?;
    let Lists {
        coordinates,
        records,
        relations,
    } = lists;
    Some(Reply::Number(number_of(sheet::clear(coordinates, records, relations))))
}

pub fn cell_reply(mut line: Rest, lists: SharedLists) -> Option<Reply> {
    let primary = line.number()?;
    let reference = line.last()?;
    match reading::read_cell(lists.records, lists.relations, primary, reference) {
        Ok(relation) => Some(Reply::Numbers(0, relation)),
        Err(refusal) => Some(Reply::Numbers(refusal.into(), 0)),
    }
}

// The list of pairs, and how many results there are.
pub fn cells_reply(mut line: Rest, lists: SharedLists, page: &mut Page) -> Option<Reply> {
    let mut pairs = [0u16; 1024];
    let pairs = line.list(&mut pairs)?;
    let count: u16 = line.last()?;
    let mut results = [BEFORE_NUMBER; 1024];
    let results = results.get_mut(..usize::from(count))?;
    let number = number_of(several::read_cells(lists.records, lists.relations, pairs, results));
    page.put_natural(u64::from(number));
    page.put_numbers(results);
    Some(Reply::Written)
}

pub fn row_reply(mut line: Rest, lists: SharedLists, page: &mut Page) -> Option<Reply> {
    let slot = line.last()?;
    let cells = reading::row(lists.records, lists.relations, slot);
    page.put_natural(cells.len() as u64);
    page.put_numbers(cells);
    Some(Reply::Written)
}

pub fn tiles_reply(mut line: Rest) -> Option<Reply> {
    Some(Reply::Number(reading::tiles(line.last()?)))
}
