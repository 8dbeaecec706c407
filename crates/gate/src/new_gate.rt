// Open: the words and the list of a new gate, over five number slices.
ghost use Rattle.lists.specs.Columns.{SameColumns, lent_in};
ghost use Rattle.model.specs.Opening.{no_gate};
ghost use Rattle.model.specs.Replies.{answer_of, words_after};
ghost use Rattle.model.specs.Slices.{Meets, open_lent};

use lists::ColumnsMut;
use model::{Answer, Refusal, Reply, SlotReply};

// Opens a gate of N plugins and k slots by the algorithm of a year, 1979 or 1989, over a list of N records, all of which it sets idle and unmarked.
// It is refused as 1 if N is not 1 to 1,024, k not 1 to 64 or the year another one, as 10 if the year is 1979 and k is not below N, and as 2 if the
// list's length is not N; a refusal leaves the list, and gives no words.
#[tactic(auto, using(crate::proofs::OpenLaws::open_refused, crate::proofs::OpenLaws::open_accepted))]
pub fn open(year: u64, n: u64, k: u64, list: &mut ColumnsMut) -> Result<SlotReply, Refusal>
    ensures meets { Meets (open_lent year n k (lent_in list.old)) (words_after no_gate result) (answer_of result) (lent_in list.new) }
    ensures same { SameColumns list.old list.new }
{
    let gate = opening::open(year, n, k, list.read())?;
    list.clear();
    Ok(Reply {
        gate,
        answer: Answer::Done,
    })
}
