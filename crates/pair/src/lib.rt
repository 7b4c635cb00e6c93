// Two regions: the pair answer.
#![tactic(auto)]

ghost use Rattle.std.specs.Prelude.{◌≡◌};
ghost use Rattle.region.specs.Outline.{drawn_by};
ghost use Rattle.region.specs.Rules.{Keeps};
ghost use Rattle.pair.specs.Answer.{answer_with, answer_in, given, answer_of, pair_of, refused_with, report_words};
ghost use Rattle.region.specs.Refusals.{number};

use compass::directions_of;
use matrix::{SizedMatrix, flat_of, grid_of, matrix_of};
use outline::check_both;
use plane::Box;
use region::{Outline, RefusedRegion};
use relation::{region_box, region_seen};
use seen::Seen;

// What is answered of two accepted regions: the relation of the first to the second and of the second to the first, the matrix, the directions
// of the first from the second, and the pieces of each.
#[derive(Clone, Copy)]
pub struct Answer {
    pub first: u16,
    pub second: u16,
    pub matrix: SizedMatrix,
    pub directions: u16,
    pub first_pieces: u16,
    pub second_pieces: u16,
}

// The answer for two boxes and what each region shows of the other's.
fn given(a: Box, b: Box, there: Seen, back: Seen) -> Answer
    ensures { answer_with result ≡ given a b there back }
{
    let g = grid_of(a, b);
    let m = matrix_of(g, a, b, there.set, back.set);
    let matrix = SizedMatrix {
        rows: g.rows,
        columns: g.columns,
        cells: flat_of(m),
    };
    Answer {
        first: there.set,
        second: back.set,
        matrix,
        directions: directions_of(m),
        first_pieces: there.pieces,
        second_pieces: back.pieces,
    }
}

// The answer for two accepted regions.
pub fn answer_of(first: Outline, second: Outline) -> Answer
    requires { Keeps 4 (drawn_by first) × Keeps 4 (drawn_by second) }
    ensures { answer_with result ≡ answer_of (drawn_by first.entry) (drawn_by second.entry) }
{
    let a = region_box(first);
    let b = region_box(second);
    let there = region_seen(b, a, first);
    let back = region_seen(a, b, second);
    given(a, b, there, back)
}

// The pair call. The first region is checked wholly before the second.
pub fn pair_of(first: Outline, second: Outline) -> Result<Answer, RefusedRegion>
    ensures { answer_in result ≡ pair_of (drawn_by first.entry) (drawn_by second.entry) }
{
    check_both(first, second)?;
    Ok(answer_of(first, second))
}

// The 19 numbers of an answer, a refusal's first three, then those of its fields; where one is refused, all others are 0.
pub fn report_words(answer: Result<Answer, RefusedRegion>) -> [u16; 19]
    ensures { result ≡ report_words (answer_in answer) }
{
    match answer {
        Ok(a) => answer_words(a),
        Err(refused) => refused_words(refused),
    }
}

fn refused_words(refused: RefusedRegion) -> [u16; 19]
    ensures { result ≡ report_words (refused_with (number refused.broken.rule) refused.region refused.broken.ring) }
{
    let mut words = [0u16; 19];
    words[0] = refused.broken.rule.into();
    words[1] = refused.region;
    words[2] = refused.broken.ring;
    words
}

fn answer_words(a: Answer) -> [u16; 19]
    ensures { result ≡ report_words (answer_with a) }
{
    let cells = a.matrix.cells;
    [
        0,
        0,
        0,
        a.first,
        a.second,
        a.matrix.rows,
        a.matrix.columns,
        cells[0] as u16,
        cells[1] as u16,
        cells[2] as u16,
        cells[3] as u16,
        cells[4] as u16,
        cells[5] as u16,
        cells[6] as u16,
        cells[7] as u16,
        cells[8] as u16,
        a.directions,
        a.first_pieces,
        a.second_pieces,
    ]
}
