// Why a replay runs no call.
ghost use Rattle.std.specs.Prelude.{◌≡◌};

use model::Refusal;

// The open is refused; or a call has no plugin number, or no room for its result; or a letter names no call.
#[derive(Clone, Copy, Debug, PartialEq, Eq)]
pub enum NotReplayed {
    NotOpened(Refusal),
    TooShort,
    NoSuchCall,
}

// The refusal of an open.
impl From<Refusal> for NotReplayed {
    ghost use Rattle.replay.specs.declared.not_replayed.NotReplayed.TheVariants.{NotOpened};

    ghost from_gives = { λ refusal reason. reason ≡ NotOpened refusal };

    fn from(refusal: Refusal) -> NotReplayed {
        NotReplayed::NotOpened(refusal)
    }
}
