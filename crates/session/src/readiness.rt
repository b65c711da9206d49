// Whether a session can be searched and written: the two checks that come before a budget or a buffer is looked at.
ghost use Rattle.std.specs.Prelude.{◌≡◌};
ghost use Rattle.numbers.specs.Refusal.{number_said};
ghost use Rattle.session.specs.Readiness.{unready_number};

use numbers::Refusal;

// Refuses a search or a writing without an accepted sheet, and while it is not reduced.
pub fn ready(loaded: bool, reduced: bool) -> Result<(), Refusal>
    ensures { number_said result ≡ unready_number loaded reduced }
{
    if !loaded {
        return Err(Refusal::NoSheet);
    }
    if !reduced {
        return Err(Refusal::NotReduced);
    }
    Ok(())
}
