// The number that an answer has in document 01.
ghost use Rattle.std.specs.Prelude.{◌≡◌};
ghost use Rattle.model.specs.Shown.{shown};

use model::{Refusal, SlotAnswer};

// The number of an answer: a refusal's, or 0, by which document 01 says that a call is not refused.
pub fn number_of(answer: Result<SlotAnswer, Refusal>) -> u8
    ensures { result ≡ (shown answer).number }
{
    answer.err().map_or(0, u8::from)
}
