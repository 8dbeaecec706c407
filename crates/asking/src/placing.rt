// Place: a waiting plugin's place in line.
ghost use Rattle.std.specs.Prelude.{◌≡◌};
ghost use Rattle.model.specs.declared.Call.TheVariants.{Place};
ghost use Rattle.begin.specs.Begin.{OfSound, alone, outcome_of};

use begin::ready;
use model::{Answer, Effect, Gate, Record, Refusal, SlotEffect, WAITING};
use steps::returns_until_valid;

// How many returns the plugin still waits for: 0 if its turn has come, 1 for the first in line. It is refused as 5 if it is stopped and as 6 if it is
// not waiting, and changes nothing.
#[tactic(auto, unfolding(model::specs::Calls::called_in, model::specs::Calls::placed_in))]
pub fn placed(g: &Gate, r: Record) -> Result<SlotEffect, Refusal>
    requires { OfSound g.now r }
    ensures { outcome_of g.now r result ≡ alone Place g.now r }
{
    ready(r.region, r.mark, WAITING)?;
    Ok(Effect {
        record: r,
        answer: Answer::Placed(returns_until_valid(g, r.ticket())),
    })
}
