// The line of one pair in a list: two slots, tiles, directions, pieces; and whether the pair's two matrices differ.
// A buffer and a place stay two parameters, as in `words`.
#![tactic(auto)]

ghost use Rattle.std.specs.Prelude.{◌≡◌, ◌+◌, ◌≤◌, length};
ghost use Rattle.names.specs.Steps.{Put};
ghost use Rattle.pair.specs.Answer.{answer_with};
ghost use Rattle.drawn.specs.Drawn.{drawn_with};
ghost use Rattle.line.specs.Differ.{differ};
ghost use Rattle.line.specs.Line.{last_words, pair_line};

use matrix::SizedMatrix;
use names::{DIRECTIONS_MIDDLE, TILES_MIDDLE, put_number, put_set, put_text};
use pair::Answer;
use words::{LINE_FEED, SPACE};

// Is the matrix of the answer another than the drawn one?
fn differ(a: Answer, d: SizedMatrix) -> bool
    ensures { result ≡ differ (answer_with a) (drawn_with d) }
{
    (a.matrix.rows != d.rows) | (a.matrix.columns != d.columns) | (a.matrix.cells != d.cells)
}

// The pieces, the word of a pair that differs, and the end of the line.
fn put_last(out: &mut [u8], from: usize, pieces: u16, differs: bool) -> usize
    requires { from + length (last_words pieces differs) ≤ length out.old }
    ensures { Put out.old from (last_words pieces differs) result out.new }
{
    if differs {
        let at = put_number(out, from, pieces, SPACE);
        return put_text(out, at, b"differ\n");
    }
    put_number(out, from, pieces, LINE_FEED)
}

// Primary, reference, tiles, directions, pieces of the primary; and whether the drawn matrix differs.
pub fn put_line(
    out: &mut [u8],
    from: usize,
    primary: u16,
    reference: u16,
    a: Answer,
    d: SizedMatrix,
) -> usize
    requires { from + length (pair_line primary reference (answer_with a) (drawn_with d)) ≤ length out.old }
    ensures { Put out.old from (pair_line primary reference (answer_with a) (drawn_with d)) result out.new }
{
    let at = put_number(out, from, primary, SPACE);
    let at = put_number(out, at, reference, SPACE);
    let at = put_set(out, at, TILES_MIDDLE, a.first);
    let at = put_set(out, at, DIRECTIONS_MIDDLE, a.directions);
    put_last(out, at, a.first_pieces, differ(a, d))
}
