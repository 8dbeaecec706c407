// The slot gate's calls over the host's plugin list as it is kept: a lent slice of records.
//
// A shopkeeper's programmer may rely on what crate `gate` promises: every call ends and answers, whatever is lent; a refusal has
// document 01's number and changes no word and no record.
//
// The list is read where it lies. A call that names a plugin writes at most that plugin's record, open writes them all, and alike none.
#![tactic(auto)]

ghost use Rattle.model.specs.Calls.{call};
ghost use Rattle.model.specs.Opening.{no_gate, open_gate};
ghost use Rattle.model.specs.Alike.{alike};
ghost use Rattle.model.specs.Replies.{answer_of, words_after};
ghost use Rattle.model.specs.Slices.{Compares};
ghost use Rattle.records.specs.Promise.{Fulfils};

use gate::decide;
use lists::Lending;
use model::{Answer, Call, Gate, Record, Refusal, Reply, SlotAnswer, SlotReply};

// Opens a gate of N plugins and k slots by the algorithm of a year over a list of N records, all of which it sets idle and unmarked. It is refused as
// gate::open is; a refusal leaves the list, and gives no words.
#[tactic(auto, unfolding(model::specs::Opening::open_gate, opening::specs::Opens::opens))]
pub fn open(year: u64, n: u64, k: u64, list: &mut [Record]) -> Result<SlotReply, Refusal>
    ensures { Fulfils (open_gate year n k list.old) (words_after no_gate result) (answer_of result) list.new }
{
    let gate = opening::open(year, n, k, &*list)?;
    list.fill(Record::default());
    Ok(Reply {
        gate,
        answer: Answer::Done,
    })
}

// Take, look, leave, place, stop or wake, by its name, of plugin p, on words that are lent. It is refused as the call of crate `gate` is; a refusal leaves
// words and list as they were.
#[tactic(auto, unfolding(model::specs::Calls::call))]
pub fn perform(name: Call, g: &mut Gate, list: &mut [Record], p: u64) -> Result<SlotAnswer, Refusal>
    ensures { Fulfils (call name g.old list.old p) g.new result list.new }
{
    let (at, effect) = decide(name, g, &*list, p)?;
    list[at] = effect.record;
    Ok(effect.answer)
}

// Whether two gates are alike: N and k are equal, each plugin has the same region and stop mark in both, each that holds a ticket the same
// validity, and the tickets not yet valid have the same order. It is refused as gate::alike is. The lists are only read.
#[tactic(auto, unfolding(model::specs::Alike::alike))]
pub fn alike(g: Gate, list: &[Record], h: Gate, other: &[Record]) -> Result<bool, Refusal>
    ensures { Compares (alike g list.now h other.now) result }
{
    let first = Lending { gate: &g, list };
    let second = Lending {
        gate: &h,
        list: other,
    };
    comparing::alike(first, second)
}
