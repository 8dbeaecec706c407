// What an answer of the numbered gate shows, as numbers, and what a call hands over.
ghost use Rattle.std.specs.Prelude.{◌≡◌};
ghost use Rattle.model.specs.Replies.{answer_of, words_after};
ghost use Rattle.numbered_gate_c.specs.Boundary.{numbered_numbers, numbered_told_of};

use answers::Kind;
use model::{Answer, Refusal, words_and_answer};
use numbered::{NumberedAnswer, NumberedGate, NumberedReply};

// The number of the call, the kind of its answer as the slot gate has it, yes as 1, a ticket and a place. What an answer does not have is 0. C reads the
// kinds as numbers. It takes no generic struct: so this and the next stand beside the slot gate's.
#[repr(C)]
#[derive(Clone, Copy, Debug, Default, PartialEq, Eq)]
pub struct NumberedShown {
    pub number: u8,
    pub kind: u8,
    pub yes: u8,
    pub ticket: u64,
    pub place: u64,
}

// The words to keep for the next call, and what the answer shows.
#[repr(C)]
#[derive(Clone, Copy, Debug, Default, PartialEq, Eq)]
pub struct NumberedTold {
    pub gate: NumberedGate,
    pub shown: NumberedShown,
}

// What an answer shows.
impl From<Result<NumberedAnswer, Refusal>> for NumberedShown {
    ghost from_gives = { λ answer shown. shown ≡ numbered_numbers answer };

    fn from(answer: Result<NumberedAnswer, Refusal>) -> NumberedShown {
        match answer {
            Ok(Answer::Took(ticket)) => NumberedShown {
                kind: Kind::Ticket as u8,
                ticket,
                ..NumberedShown::default()
            },
            Ok(Answer::Looked(yes)) => NumberedShown {
                kind: Kind::YesOrNo as u8,
                yes: u8::from(yes),
                ..NumberedShown::default()
            },
            Ok(Answer::Placed(place)) => NumberedShown {
                kind: Kind::Place as u8,
                place,
                ..NumberedShown::default()
            },
            Ok(Answer::Done) => NumberedShown {
                kind: Kind::Done as u8,
                ..NumberedShown::default()
            },
            Err(refusal) => NumberedShown {
                number: u8::from(refusal),
                kind: Kind::Refused as u8,
                ..NumberedShown::default()
            },
        }
    }
}

// What a call returned, handed over: no `From`, since it takes the words too. After a refusal the words are those that were given, g.
pub fn tell(g: NumberedGate, returned: Result<NumberedReply, Refusal>) -> NumberedTold
    ensures { result ≡ numbered_told_of (words_after g returned) (answer_of returned) }
{
    let (gate, answer) = words_and_answer(g, returned);
    NumberedTold {
        gate,
        shown: NumberedShown::from(answer),
    }
}
