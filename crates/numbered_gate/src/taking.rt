// Take: a plugin takes the next number.
ghost use Rattle.std.specs.Prelude.{◌≡◌};
ghost use Rattle.model.specs.declared.Call.TheVariants.{Take};
ghost use Rattle.numbered_gate.specs.Decides.{alone, outcome_of};

use begin::ready;
use model::{Answer, Effect, IDLE, Refusal, WAITING};
use numbered::{NumberedEffect, NumberedGate, NumberedRecord};

// The plugin takes the next ticket, which the answer carries, and waits. It is refused as 5 if it is stopped, as 6 if it is not idle and last as 11 if
// ISSUE has its greatest value.
#[tactic(auto, unfolding(numbered::specs::Calls::called_numbered, numbered::specs::Calls::taken_numbered))]
pub fn taken(g: &mut NumberedGate, r: NumberedRecord) -> Result<NumberedEffect, Refusal>
    ensures { outcome_of g.new r result ≡ alone Take g.old r }
{
    ready(r.region, r.mark, IDLE)?;
    let issue = g.issue.checked_add(1).ok_or(Refusal::CounterFull)?;
    g.issue = issue;
    Ok(Effect {
        record: NumberedRecord {
            region: WAITING,
            ticket: issue,
            ..r
        },
        answer: Answer::Took(issue),
    })
}
