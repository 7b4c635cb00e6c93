// The request on one edge and one box: edge.
use answers::{Page, Reply};
use edge::Walk;
use input::Rest;

// `-`: no edge or no box that has tiles.
const NO_TILES: u8 = b'-';

// The tiles of an edge in order of travel: the line has x and y of its start and of its end, and west, south, east and north of the box.
pub fn edge_reply(mut line: Rest, page: &mut Page) -> Option<Reply> {
    let mut numbers = [0i32; 8];
    line.numbers(&mut numbers)?;
    line.end()?;
    put_walk(page, leg::asked_walk(&numbers));
    Some(Reply::Written)
}

// How many tiles there are, and each of them: at most five.
fn put_walk(page: &mut Page, walk: Walk) {
    if walk.list == 0 {
        page.put_byte(NO_TILES);
        return;
    }
    page.put_natural(walk.pieces);
    for shift in [16, 12, 8, 4, 0] {
        // The tile and one; nothing stands before the first, where the digit is 0.
        let digit = (walk.list >> shift) % 16;
        if digit != 0 {
            page.put_number(digit - 1);
        }
    }
}
