// Next call, of document 01: what a part of a schedule begins with, and the rest of the caller's own buffer.
ghost use Rattle.std.specs.Prelude.{◌≡◌};
ghost use Rattle.model.specs.Schedule.{next_call};
ghost use Rattle.schedule.specs.Next.{NextIs, SameEnd};

use crate::line::read_line;
use model::{Line, NotALine};

// What next call answers, with no line for the end, and the part that it returns, which lies in the buffer that the caller lent.
#[derive(Clone, Copy)]
pub struct Next<'a> {
    pub answer: Result<Option<Line>, NotALine>,
    pub rest: &'a [u8],
}

// What a part begins with, and what follows: after a line the rest of the part, of an empty part that part, and where no line of the
// grammar begins (8) the whole part. The rest is no copy: it lies in the caller's own buffer and ends at the same byte, so its length says
// where it starts.
#[tactic(auto, using(crate::proofs::LineLaws::next_end, crate::proofs::LineLaws::next_some, crate::proofs::LineLaws::next_none))]
pub fn next_call(part: &[u8]) -> Next<'_>
    ensures answer { NextIs (next_call part.now) result.answer }
    ensures rest { result.rest.now ≡ (next_call part.now).rest }
    ensures same_end { SameEnd part.entry result.rest }
{
    if part.is_empty() {
        return Next {
            answer: Ok(None),
            rest: part,
        };
    }
    match read_line(part) {
        Some((line, rest)) => Next {
            answer: Ok(Some(line)),
            rest,
        },
        None => Next {
            answer: Err(NotALine),
            rest: part,
        },
    }
}
