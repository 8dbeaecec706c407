// What a call of the slot gate hands over to C and Rust: the words, and what its answer shows.
#![tactic(auto)]

ghost use Rattle.std.specs.Prelude.{◌≡◌};
ghost use Rattle.model.specs.Replies.{answer_of, words_after};
ghost use Rattle.told.specs.Told.{told_of};

use answers::Shown;
use model::{Gate, Refusal, SlotReply, words_and_answer};

// The words to keep for the next call, and what the answer shows.
#[repr(C)]
#[derive(Clone, Copy)]
pub struct Told {
    pub gate: Gate,
    pub shown: Shown,
}

// The words, before there is an answer: a call changes them here. They are copied field by field, since a compiler copies all 144 bytes at once by a call.
#[inline(always)]
pub fn unanswered(g: Gate) -> Told
    ensures { result.gate ≡ g }
{
    let counts = g.counts;
    let free = g.free;
    Told {
        gate: Gate { counts, free, ..g },
        shown: Shown::default(),
    }
}

// What a call returned, handed over: no `From`, since it takes the words too. After a refusal the words are those that were given, g.
pub fn tell(g: Gate, returned: Result<SlotReply, Refusal>) -> Told
    ensures { result ≡ told_of (words_after g returned) (answer_of returned) }
{
    let (gate, answer) = words_and_answer(g, returned);
    Told {
        gate,
        shown: Shown::from(answer),
    }
}
