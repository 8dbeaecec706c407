// Leave: how a slot comes back, or a turn that is not used.
ghost use Rattle.std.specs.Prelude.{◌≡◌};
ghost use Rattle.model.specs.declared.Call.TheVariants.{Leave};
ghost use Rattle.numbered_gate.specs.Decides.{alone, outcome_of};

use begin::may_leave;
use model::{Answer, Effect, Refusal};
use numbered::{NumberedEffect, NumberedGate, NumberedRecord};

// The plugin gives back its slot or, if it waits and its ticket is not above VALID, its turn. It is idle then, its ticket gone, and VALID goes up by 1.
// It is refused as 5 if it is stopped, as 6 if it is idle, as 9 if it waits and its ticket is above VALID, and last as 11 if VALID has its greatest
// value.
#[tactic(auto, unfolding(numbered::specs::Calls::called_numbered, numbered::specs::Calls::left_numbered))]
pub fn left(g: &mut NumberedGate, r: NumberedRecord) -> Result<NumberedEffect, Refusal>
    ensures { outcome_of g.new r result ≡ alone Leave g.old r }
{
    may_leave(r.region, r.mark, r.ticket <= g.valid)?;
    g.valid = g.valid.checked_add(1).ok_or(Refusal::CounterFull)?;
    Ok(Effect {
        record: NumberedRecord {
            mark: r.mark,
            ..NumberedRecord::default()
        },
        answer: Answer::Done,
    })
}
