// Look: the test by which a waiting plugin enters.
ghost use Rattle.std.specs.Prelude.{◌≡◌};
ghost use Rattle.model.specs.declared.Call.TheVariants.{Look};
ghost use Rattle.numbered_gate.specs.Decides.{alone, outcome_of};

use begin::ready;
use model::{Answer, Effect, INSIDE, Refusal, WAITING};
use numbered::{NumberedEffect, NumberedGate, NumberedRecord};

// Whether the plugin may go inside: yes, if its ticket is not above VALID, puts it inside; no changes nothing and is not a refusal. It is refused as 5
// if it is stopped and as 6 if it is not waiting.
#[tactic(auto, unfolding(numbered::specs::Calls::called_numbered, numbered::specs::Calls::looked_numbered))]
pub fn looked(g: &NumberedGate, r: NumberedRecord) -> Result<NumberedEffect, Refusal>
    ensures { outcome_of g.now r result ≡ alone Look g.now r }
{
    ready(r.region, r.mark, WAITING)?;
    if r.ticket > g.valid {
        return Ok(Effect {
            record: r,
            answer: Answer::Looked(false),
        });
    }
    Ok(Effect {
        record: NumberedRecord {
            region: INSIDE,
            ..r
        },
        answer: Answer::Looked(true),
    })
}
