// The word "around" of a pair answer.
#![tactic(auto)]

ghost use Rattle.std.specs.Prelude.{◌≡◌};
ghost use Rattle.pair.specs.Answer.{answer_in};
ghost use Rattle.around.specs.Around.{around_of};

use pair::Answer;
use region::RefusedRegion;

// The eight tiles without B, and B alone, as sets.
const EIGHT: u16 = 495;

const MIDDLE: u16 = 16;

// Is the first region around the second? It lies in all eight tiles round the second's box and not in the box; the second lies in the first's box
// and nowhere else. Of regions that are refused neither is.
pub fn around(answer: Result<Answer, RefusedRegion>) -> bool
    ensures { result ≡ around_of (answer_in answer) }
{
    let Ok(a) = answer else {
        return false;
    };
    a.first == EIGHT && a.second == MIDDLE
}
