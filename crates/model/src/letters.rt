// The letters that name the calls: T take, L look, B leave, P place, S stop, W wake.
ghost use Rattle.std.specs.Prelude.{◌≡◌};
ghost use Rattle.model.specs.Letters.{call_letter, named_call};

use crate::{Call, Refusal};

// The call that a letter names. A byte that names none is a bad line.
impl TryFrom<u8> for Call {
    type Error = Refusal;

    ghost try_from_gives = { λ letter call. call ≡ named_call letter };

    #[tactic(auto, unfolding(crate::specs::Letters::is_letter, crate::specs::Letters::letter_call, crate::specs::Schedule::call_line))]
    fn try_from(letter: u8) -> Result<Call, Refusal> {
        match letter {
            b'T' => Ok(Call::Take),
            b'L' => Ok(Call::Look),
            b'B' => Ok(Call::Leave),
            b'P' => Ok(Call::Place),
            b'S' => Ok(Call::Stop),
            b'W' => Ok(Call::Wake),
            _ => Err(Refusal::BadLine),
        }
    }
}

// The letter of a call.
impl From<Call> for u8 {
    ghost from_gives = { λ call letter. letter ≡ call_letter call };

    fn from(call: Call) -> u8 {
        call as u8
    }
}
