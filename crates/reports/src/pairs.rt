// The requests on two outlines: pair and drawn.
use answers::{Page, Reply};
use input::Rest;
use matrix::SizedMatrix;
use pair::Answer;
use region::{Outline, RefusedRegion};

pub fn pair_reply(line: Rest, page: &mut Page) -> Option<Reply> {
    let answer = of_two(line, |first, second| pair::pair_of(first, second))?;
    put_answer(page, answer);
    Some(Reply::Written)
}

pub fn drawn_reply(line: Rest, page: &mut Page) -> Option<Reply> {
    let drawn = of_two(line, |first, second| drawn::drawn_of(first, second))?;
    put_drawn(page, drawn);
    Some(Reply::Written)
}

// What is asked of the two outlines that stand in the line.
fn of_two<A, F: FnOnce(Outline, Outline) -> A>(mut line: Rest, asked: F) -> Option<A>
    requires { F.IsAlwaysCallable asked }
{
    let mut first_coordinates = [0i32; 1024];
    let mut first_ends = [0u16; 64];
    let first = line.outline(&mut first_coordinates, &mut first_ends)?;
    let mut second_coordinates = [0i32; 1024];
    let mut second_ends = [0u16; 64];
    let second = line.outline(&mut second_coordinates, &mut second_ends)?;
    line.end()?;
    Some(asked(first, second))
}

// The numbers of an answer in the order of the host's report, and 1 or 0 for "around".
fn put_answer(page: &mut Page, answer: Result<Answer, RefusedRegion>) {
    let numbers = pair::report_words(answer);
    page.put_natural(u64::from(numbers[0]));
    page.put_numbers(&numbers[1..]);
    page.put_number(u64::from(around::around(answer)));
}

// Number, region and ring, rows and columns, and the nine cells by row.
fn put_drawn(page: &mut Page, drawn: Result<SizedMatrix, RefusedRegion>) {
    let numbers = drawn::drawn_words(drawn);
    page.put_natural(u64::from(numbers[0]));
    page.put_numbers(&numbers[1..]);
}
