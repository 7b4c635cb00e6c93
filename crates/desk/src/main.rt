// The desk: every call of the library at a keyboard. Requests come in on standard input, one a line, and each has one line of answer on
// standard output. Lines of nothing but spaces and lines that begin with `#`, remarks, have none. There is one sheet, empty at the start.
#![tactic(auto)]

use answers::{Page, Reply};
use input::{Input, Request, Rest};
use kept::Kept;
use std::io::Read;

fn main(rt: HostRuntime) {
    let mut input = Input::new();
    let mut page = Page::new();
    let mut kept = Kept::new();
    serve(&mut rt.stdin(), &rt, &mut input, &mut page, &mut kept);
}

// Answers line after line, and sends the answers before it reads on. The last line of the input may lack its line feed. A proved loop has to
// end, and nothing says that the input does: so the loop counts its turns, to a number that no run uses up.
fn serve(
    from: &mut impl Read,
    to: &impl Print,
    input: &mut Input,
    page: &mut Page,
    kept: &mut Kept,
) {
    for _ in 0..u64::MAX {
        let is_line = input.take_line();
        if !is_line {
            page.send(to);
        }
        let is_over = !is_line && !input.read_on(from);
        if is_line || is_over {
            answer(to, input, page, kept);
            input.next_line();
        }
        if is_over {
            page.send(to);
            return;
        }
    }
}

// Answers the line that was taken.
fn answer(to: &impl Print, input: &Input, page: &mut Page, kept: &mut Kept) {
    page.begin(to);
    let Some(line) = input.line() else {
        page.finish(None);
        return;
    };
    if is_passed_over(line) {
        return;
    }
    let reply = ask(Rest::of(line), page, kept);
    page.finish(reply);
}

fn is_passed_over(line: &[u8]) -> bool {
    line.is_empty() || line[0] == b'#' || words::is_over(line, 0)
}

// Part of its one caller: as a function of its own a short request takes a fifth more instructions.
#[inline(always)]
fn ask(mut line: Rest, page: &mut Page, kept: &mut Kept) -> Option<Reply> {
    let request = line.request()?;
    match request {
        Request::Pair => reports::pair_reply(line, page),
        Request::Drawn => reports::drawn_reply(line, page),
        Request::Edge => reports::edge_reply(line, page),
        Request::Directions => reports::directions_reply(line),
        Request::Host => reports::host_reply(line, page),
        Request::Tiles => parcels::tiles_reply(line),
        Request::Lend => {
            let mut lengths = kept.lengths();
            let reply = kept::lend_reply(line, &mut lengths);
            kept.lend(lengths);
            reply
        }
        Request::Poke => lists::poke_reply(line, kept.whole_lists()),
        Request::Sheet => lists::sheet_reply(line, kept.shared_whole_lists(), page),
        Request::Put => parcels::put_reply(line, kept.lists()),
        Request::Remove => parcels::remove_reply(line, kept.lists()),
        Request::Clear => parcels::clear_reply(line, kept.lists()),
        Request::Load => papers::load_reply(line, kept.lists()),
        Request::Cell => parcels::cell_reply(line, kept.shared_lists()),
        Request::Cells => parcels::cells_reply(line, kept.shared_lists(), page),
        Request::Row => parcels::row_reply(line, kept.shared_lists(), page),
        Request::Write => papers::write_reply(line, kept.shared_lists(), page),
    }
}
