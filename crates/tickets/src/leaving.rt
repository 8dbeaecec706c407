// Leave: how a slot comes back, the exit of the 1989 paper's Figure 7; and how a turn is handed back that is not used.
ghost use Rattle.std.specs.Prelude.{◌≡◌, ◌<◌, ◌≤◌, get_or};
ghost use Rattle.model.specs.declared.Call.TheVariants.{Leave};
ghost use Rattle.model.specs.Calls.{count_down, count_up};
ghost use Rattle.begin.specs.Begin.{OfSound, alone, outcome_of};

use begin::may_leave;
use model::{Answer, COLOURS, Colour, Effect, Gate, Record, Refusal, SlotEffect};
use steps::{FreeRow, is_valid, moved};

// The counts after a leave, of which there are COLOURS, cast as no `usize::from` can be called in a type: 1 is added to that of the colour that VALID has now, and then 1 taken from that of the ticket's colour.
fn recounted(
    counts: [u8; COLOURS as usize],
    given: Colour,
    returned: Colour,
) -> [u8; COLOURS as usize]
    requires { (given.0 < 65) × (returned.0 < 65) × (get_or counts given.0 0 ≤ 64) × (0 < get_or (count_up counts given.0) returned.0 0) }
    ensures { result ≡ count_down (count_up counts given.0) returned.0 }
{
    let mut counts = counts;
    counts[usize::from(given.0)] += 1;
    counts[usize::from(returned.0)] -= 1;
    counts
}

// The plugin gives its slot back, which goes behind the last free one, or, if it waits and its ticket is valid, its turn, with which no slot comes
// back. It is idle then, its ticket and its slot gone: VALID moves, and the counts follow. It is refused as 5 if it is stopped, as 6 if it is idle
// and as 9 if it waits and its ticket is not valid.
#[tactic(auto, unfolding(model::specs::Calls::called_in, model::specs::Calls::left_in))]
pub fn left(g: &mut Gate, r: Record) -> Result<SlotEffect, Refusal>
    requires { OfSound g.old r }
    ensures { outcome_of g.new r result ≡ alone Leave g.old r }
{
    may_leave(r.region, r.mark, is_valid(g, r.ticket()))?;
    let t = moved(g, g.valid, g.issue);
    let places = g.free;
    let row = FreeRow { places, k: g.k };
    g.valid = t;
    g.counts = recounted(g.counts, t.colour, r.colour);
    g.free = row.put_back(r.slot);
    Ok(Effect {
        record: Record {
            mark: r.mark,
            ..Record::default()
        },
        answer: Answer::Done,
    })
}
