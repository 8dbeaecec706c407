// Lists of letters, one for each call.
ghost use Rattle.std.specs.Prelude.{◌≡◌};
ghost use Rattle.model.specs.Lists.{all};
ghost use Rattle.model.specs.Letters.{is_letter};

use model::Call;

// Whether each letter names a call.
pub fn all_letters(calls: &[u8]) -> bool
    ensures { result ≡ all is_letter calls.now }
{
    calls.iter().all(|letter| Call::try_from(*letter).is_ok())
}
