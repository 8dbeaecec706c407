// Look: the test of the 1989 paper's Figure 7 by which a waiting plugin enters, and the slot that it gets.
ghost use Rattle.std.specs.Prelude.{◌≡◌};
ghost use Rattle.model.specs.declared.Call.TheVariants.{Look};
ghost use Rattle.begin.specs.Begin.{OfSound, alone, outcome_of};

use begin::ready;
use model::{Answer, Effect, Gate, INSIDE, Record, Refusal, SlotEffect, Verdict, WAITING};
use steps::{FreeRow, rule_of, says_yes};

// Whether the plugin may go inside: yes puts it inside and gives it the first free slot, which the answer carries; no changes nothing and is not a
// refusal. Each carries the rule that applied. It is refused as 5 if it is stopped and as 6 if it is not waiting.
#[tactic(auto, unfolding(model::specs::Calls::called_in))]
pub fn looked(g: &mut Gate, r: Record) -> Result<SlotEffect, Refusal>
    requires { OfSound g.old r }
    ensures { outcome_of g.new r result ≡ alone Look g.old r }
{
    ready(r.region, r.mark, WAITING)?;
    let rule = rule_of(g, r.ticket());
    if !says_yes(rule) {
        return Ok(Effect {
            record: r,
            answer: Answer::Looked(Verdict::No(rule)),
        });
    }
    let places = g.free;
    let row = FreeRow { places, k: g.k };
    // A plugin whose ticket is valid finds a slot in the row; where there is none the definition, too, gives the number that is no slot.
    let slot = row.first().unwrap_or_default();
    g.free = row.moved_up();
    Ok(Effect {
        record: Record {
            region: INSIDE,
            slot,
            ..r
        },
        answer: Answer::Looked(Verdict::Yes(slot, rule)),
    })
}
