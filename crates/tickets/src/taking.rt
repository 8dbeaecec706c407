// Take: TAKE_NEXT_TICKET of the 1989 paper's Figure 7.
ghost use Rattle.std.specs.Prelude.{◌≡◌};
ghost use Rattle.model.specs.declared.Call.TheVariants.{Take};
ghost use Rattle.begin.specs.Begin.{alone, outcome_of};

use begin::ready;
use model::{Answer, Effect, Gate, IDLE, Record, Refusal, SlotEffect, WAITING};
use steps::moved;

// The plugin takes the next ticket, which the answer carries, and waits. It is refused as 5 if it is stopped and as 6 if it is not idle.
#[tactic(auto, unfolding(model::specs::Calls::called_in, model::specs::Calls::taken_in))]
pub fn taken(g: &mut Gate, r: Record) -> Result<SlotEffect, Refusal>
    ensures { outcome_of g.new r result ≡ alone Take g.old r }
{
    ready(r.region, r.mark, IDLE)?;
    let t = moved(g, g.issue, g.valid);
    g.issue = t;
    Ok(Effect {
        record: Record {
            region: WAITING,
            value: t.value,
            colour: t.colour,
            ..r
        },
        answer: Answer::Took(t),
    })
}
