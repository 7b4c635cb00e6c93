// The listing program: a card on standard input, its list on standard output; with the argument --version, its version.
#![tactic(auto)]

ghost use Rattle.std.specs.Prelude.{◌≡◌, ◌≤◌, false, length, take, IfSome};
ghost use Rattle.lines.specs.Listing.{listing};

mod version;

use intake::read_card;
use lines::list;
use std::io::Read;

// Where the list of an input ends in the buffer, and whether a read of it failed, so that there may have been more. No Result: what was read
// has its list either way.
#[derive(Clone, Copy)]
struct Listed {
    end: usize,
    failed: bool,
}

// Lists the whole input. A card has at most 17,036 bytes. One more tells a longer input, whose length is wrong however it goes on.
fn list_input<R: Read>(from: &mut R, out: &mut [u8; 131072]) -> Listed
    ensures in_bounds { result.end ≤ length out.new }
    ensures list { result.failed ≡ false → IfSome (R.remaining from.old) (λ input. take result.end out.new ≡ listing input) }
{
    let mut card = [0u8; 17037];
    let input = read_card(from, &mut card);
    Listed {
        end: list(&card[..input.count], out),
        failed: input.failed,
    }
}

// Whatever was read has its list; that there may have been more, or that the list was not written, is told on standard error, and by no exit
// status.
fn print_list(from: &mut impl Read, to: &(impl Print + Eprint)) {
    let mut out = [0u8; 131072];
    let listed = list_input(from, &mut out);
    if listed.failed {
        let _ = to.eprintln("listing: the input could not be read to its end");
    }
    if to.write_all(&out[..listed.end]).is_err() {
        let _ = to.eprintln("listing: the list could not be written to its end");
    }
}

fn main(rt: HostRuntime) {
    if version::is_asked(&rt) {
        version::print(&rt);
        return;
    }
    print_list(&mut rt.stdin(), &rt);
}
