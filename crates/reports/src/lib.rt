// The requests on two outlines, on an edge, on a matrix and on a card, which are answered with numbers of a report and need no sheet: pair,
// drawn, edge, directions, host.
#![tactic(auto)]

mod edges;
mod pairs;

use answers::{BEFORE, Page, Reply};
pub use edges::edge_reply;
use input::Rest;
pub use pairs::{drawn_reply, pair_reply};

// The directions read from the matrix of the nine numbers of eight bits that stand in the line, by row.
pub fn directions_reply(mut line: Rest) -> Option<Reply> {
    let mut rows = [[0u8; 3]; 3];
    for row in rows.iter_mut() {
        line.numbers(row)?;
    }
    line.end()?;
    Some(Reply::Number(compass::directions_of(rows)))
}

// Reports on a card into a buffer of the length that the line says, and answers the number and the whole report.
pub fn host_reply(mut line: Rest, page: &mut Page) -> Option<Reply> {
    let size: u16 = line.number()?;
    let mut report = [BEFORE; 100];
    let report = report.get_mut(..usize::from(size))?;
    let mut bytes = [0u8; 32768];
    let card = line.last_bytes(&mut bytes)?;
    let number = host::direction_report(card, report);
    page.put_natural(u64::from(number));
    page.put_bytes(report);
    Some(Reply::Written)
}
