// The picture program: a card on standard input, an SVG picture on standard output. Without an argument it is the map of the card's parcels;
// with two slots, the parcel in the first seen from the parcel in the second.
#![tactic(auto)]

mod draw;

use answers::front;
use draw::draw;
use intake::read_card;
use svg::Page;

// A card has at most 17,036 bytes; one more tells a longer input. The buffer has room for the picture of any card.
fn main(rt: HostRuntime) {
    let mut card = [0u8; 17037];
    let input = read_card(&mut rt.stdin(), &mut card);
    if input.failed {
        let _ = rt.eprintln("picture: the input could not be read to its end");
    }
    let mut out = [0u8; 131072];
    let mut page = Page::new(&mut out);
    draw(&rt, front(&card, input.count), &mut page);
    if rt.write_all(page.written()).is_err() {
        let _ = rt.eprintln("picture: the picture could not be written to its end");
    }
}
