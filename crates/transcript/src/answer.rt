// What a call answers.
ghost use Rattle.transcript.specs.Lines.{answer_text, ticket_room};

use crate::piece::Piece;
use crate::ticket::TICKET_ROOM;
use arrayvec::ArrayVec;
use model::{Answer, Refusal, SlotAnswer, Verdict};

// A ticket, a place, a look's yes as 1 and no as 0, and `-` where a call has no answer.
impl<const N: usize> Piece<N> for Result<SlotAnswer, Refusal> {
    const ROOM: usize = TICKET_ROOM;

    ghost ROOM = { ticket_room };

    ghost text = { answer_text };

    #[tactic(auto, unfolding(crate::specs::Lines::answer_text, crate::specs::Lines::decimal, crate::specs::Lines::decimal_in))]
    fn write(self, out: &mut ArrayVec<u8, N>) {
        match self {
            Ok(Answer::Took(t)) => t.write(out),
            Ok(Answer::Looked(Verdict::Yes(_, _))) => out.push(b'1'),
            Ok(Answer::Looked(Verdict::No(_))) => out.push(b'0'),
            Ok(Answer::Placed(n)) => n.write(out),
            Ok(Answer::Done) | Err(_) => out.push(b'-'),
        }
    }
}
