// An SVG picture, written onto a page. Lengths are tenths of a pixel.
#![tactic(auto)]

ghost use Rattle.std.specs.Prelude.{◌≡◌};

use std::fmt::Display;

mod page;

pub use page::Page;

// The start of a picture of this height, 960 pixels wide: its title and description, and a white ground, so that it can be read on any page.
pub fn put_head<D: Display + Drop>(page: &mut Page, height: u16, title: D, description: &str)
    ensures { page.new.out.ghost_name ≡ page.old.out.ghost_name }
{
    let pixels = height / 10;
    write!(
        page,
        "<svg xmlns='http://www.w3.org/2000/svg' width='960' height='{pixels}' viewBox='0 0 9600 {height}' role='img' \
        font-family='Helvetica, Arial, sans-serif' font-size='260' fill='#1b1b1b'>\n\
        <title>{title}</title>\n\
        <desc>{description}</desc>\n\
        <rect x='0' y='0' width='9600' height='{height}' fill='#ffffff'/>\n"
    );
}

pub fn put_foot(page: &mut Page)
    ensures { page.new.out.ghost_name ≡ page.old.out.ghost_name }
{
    page.text(b"</svg>\n");
}
