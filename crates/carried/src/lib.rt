// The pair answer and the drawn matrix of two parcels that a good card carries.
#![tactic(auto)]

ghost use Rattle.std.specs.Prelude.{◌≡◌, ◌<◌};
ghost use Rattle.card.specs.Reading.{parcel_count};
ghost use Rattle.pair.specs.Answer.{answer_with};
ghost use Rattle.drawn.specs.Drawn.{drawn_with};
ghost use Rattle.carried.specs.Pairs.{pair_in, drawn_in};

use contents::GoodCard;
use drawn::matrix_drawn;
use matrix::SizedMatrix;
use pair::{Answer, answer_of};

// The pair answer for parcels j and k of a good card. Its parcels are accepted, so they are not checked again. Never part of its caller: so a
// host's call has the parcels on its stack while they are answered, and not while a card is checked.
#[inline(never)]
pub fn pair_in(card: &GoodCard, j: usize, k: usize) -> Answer
    requires { (j < parcel_count card.now.bytes.now) × (k < parcel_count card.now.bytes.now) }
    ensures { answer_with result ≡ pair_in card.now.bytes.now j k }
{
    let one = card.parcel(j);
    let two = card.parcel(k);
    answer_of(one.outline(), two.outline())
}

// The drawn matrix of parcels j and k of a good card. Its parcels are accepted, so they are not checked again. What is the same in both, the
// reading of two parcels, is two lines: a function with the one call as a closure would be longer.
pub fn drawn_in(card: &GoodCard, j: usize, k: usize) -> SizedMatrix
    requires { (j < parcel_count card.now.bytes.now) × (k < parcel_count card.now.bytes.now) }
    ensures { drawn_with result ≡ drawn_in card.now.bytes.now j k }
{
    let one = card.parcel(j);
    let two = card.parcel(k);
    matrix_drawn(one.outline(), two.outline())
}
