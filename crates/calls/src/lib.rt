// What each call on a sheet answers and leaves: definitions and laws; and the number of an answer, as a host is given it.
#![tactic(auto)]

ghost use Rattle.std.specs.Prelude.{◌≡◌};
ghost use Rattle.region.specs.Refusals.{number_in};

use region::refusals::Refusal;

// 0, or the number of the refusal.
pub fn number_of(answer: Result<(), Refusal>) -> u16
    ensures { result ≡ number_in answer }
{
    match answer {
        Ok(()) => 0,
        Err(refusal) => refusal.into(),
    }
}
