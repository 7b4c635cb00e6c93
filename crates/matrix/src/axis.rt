// The distinct lines of two boxes in one axis, put in one at a time.
ghost use Rattle.std.specs.Prelude.{◌≡◌, ◌&&◌, ◌-◌, ◌≤◌, ◌<◌, leb, ltb, eqb, get_or};
ghost use Rattle.plane.specs.Choice.{pick};
ghost use Rattle.plane.specs.Folds.{first_of};
ghost use Rattle.matrix.specs.Holding.{insert, lines_of};
ghost use Rattle.matrix.specs.Kept.{rising, lines_in};

use crate::Rising;

// The first of the lines that is not below v, or their number.
fn place_among(at: [u64; 4], count: usize, v: u64) -> usize
    requires { count ≤ 4 }
    ensures { result ≡ first_of (λ k. leb v (get_or at k 0)) count }
{
    for k in 0..count {
        if v <= at[k] {
            return k;
        }
    }
    count
}

fn stands_at(at: [u64; 4], count: usize, p: usize, v: u64) -> bool
    requires { count ≤ 4 }
    ensures { result ≡ (ltb p count && eqb (get_or at p 0) v) }
{
    p < count && at[p] == v
}

// Line k once v is put in at place p and what stands from there on is moved up. Each line by itself: moved as a part of a list, the lines
// past the count would have to be told apart too.
fn moved_line(at: [u64; 4], p: usize, v: u64, k: usize) -> u64
    requires { k < 4 }
    ensures { result ≡ pick (ltb k p) (get_or at k 0) (pick (eqb k p) v (get_or at (k - 1) 0)) }
{
    if k < p {
        return at[k];
    }
    if k == p {
        return v;
    }
    at[k - 1]
}

// The lines with v among them, once.
fn with_line(l: Rising, v: u64) -> Rising
    requires { (l.count < 4) × (l ≡ rising (lines_in l)) }
    ensures { result ≡ rising (insert v (lines_in l)) }
{
    let count = l.count;
    let old = l.at;
    let p = place_among(old, count, v);
    if stands_at(old, count, p, v) {
        return l;
    }
    let at = [
        moved_line(old, p, v, 0),
        moved_line(old, p, v, 1),
        moved_line(old, p, v, 2),
        moved_line(old, p, v, 3),
    ];
    Rising {
        count: count + 1,
        at,
    }
}

// The lines of both boxes in one axis.
pub fn lines_of(lo: u64, hi: u64, lo2: u64, hi2: u64) -> Rising
    ensures { result ≡ rising (lines_of lo hi lo2 hi2) }
{
    let at = [0u64; 4];
    let none = Rising { count: 0, at };
    let one = with_line(none, hi2);
    let two = with_line(one, lo2);
    let three = with_line(two, hi);
    with_line(three, lo)
}
