// Place: a waiting plugin's place in line.
ghost use Rattle.std.specs.Prelude.{◌≡◌};
ghost use Rattle.model.specs.declared.Call.TheVariants.{Place};
ghost use Rattle.numbered_gate.specs.Decides.{alone, outcome_of};

use begin::ready;
use model::{Answer, Effect, Refusal, WAITING};
use numbered::{NumberedEffect, NumberedGate, NumberedRecord};

// How many returns the plugin still waits for: 0 if its ticket is not above VALID, else how far it is above. It is refused as 5 if it is stopped and as
// 6 if it is not waiting, and changes nothing.
#[tactic(auto, unfolding(numbered::specs::Calls::called_numbered, numbered::specs::Calls::placed_numbered))]
pub fn placed(g: &NumberedGate, r: NumberedRecord) -> Result<NumberedEffect, Refusal>
    ensures { outcome_of g.now r result ≡ alone Place g.now r }
{
    ready(r.region, r.mark, WAITING)?;
    Ok(Effect {
        record: r,
        answer: Answer::Placed(r.ticket.saturating_sub(g.valid)),
    })
}
