// What stands round the parcels: the frame, the bar that shows a round length, and the arrow to the north.
ghost use Rattle.std.specs.Prelude.{◌≡◌};

use scale::view::{View, bottom, tenths};
use svg::Page;

const ROUND_LENGTHS: [u64; 19] = [
    1, 2, 5, 10, 20, 50, 100, 200, 500, 1000, 2000, 5000, 10000, 20000, 50000, 100000, 200000,
    500000, 1000000,
];

// The longest round length of at most 240 pixels; 1 where there is none.
fn bar_length(v: View) -> u64 {
    ROUND_LENGTHS
        .iter()
        .rev()
        .copied()
        .find(|length| tenths(*length, v.span) <= 2400)
        .unwrap_or(1)
}

pub fn put_furniture(page: &mut Page, v: View)
    ensures { page.new.out.ghost_name ≡ page.old.out.ghost_name }
{
    let height = v.height;
    let y = bottom(v);
    let length = bar_length(v);
    let unit = if length == 1 { "unit" } else { "units" };
    let width = tenths(length, v.span);
    let behind = width + 350;
    let bar = y + 380;
    let words = y + 470;
    let arrow = y + 620;
    write!(
        page,
        "<rect x='200' y='200' width='9200' height='{height}' fill='none' stroke='#555555' stroke-width='15'/>\n\
        <path d='M200 {bar}l{width} 0' stroke='#1b1b1b' stroke-width='60'/>\n\
        <text x='{behind}' y='{words}' >{length} {unit}</text>\n\
        <path d='M9260 {arrow}v-470m-90 140 90-150 90 150' fill='none' stroke='#1b1b1b' stroke-width='35'/>\n\
        <text x='8960' y='{words}' text-anchor='middle'>N</text>\n"
    );
}
