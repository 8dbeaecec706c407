// Refusals 2, 3 and 4, with which every call that names a plugin begins, on whatever gate.
ghost use Rattle.std.specs.Prelude.{◌≡◌, ℕ, Bool, true};
ghost use Rattle.begin.specs.Begin.{begins};

use model::Refusal;

// The words of a gate with the plugin list lent beside them, as a call first looks at them.
pub trait Checked {
    // The word N.
    ghost plugins: { Self → ℕ };

    // Whether the list's length is N.
    ghost has_length: { Self → Bool };

    // Whether words and list are sound.
    ghost is_sound: { Self → Bool };

    fn plugins(&self) -> u16
        ensures { result ≡ plugins self.now };

    fn has_length(&self) -> bool
        ensures { result ≡ has_length self.now };

    // It is asked only of a list that has its length.
    fn is_sound(&self) -> bool
        requires { has_length self.now ≡ true }
        ensures { result ≡ is_sound self.now };
}

// The first of the refusals 2, 3 and 4 that comes, or the place of plugin p in the list.
#[tactic(auto, unfolding(crate::specs::Begin::begins))]
pub fn begin<C: Checked>(lent: &C, p: u64) -> Result<usize, Refusal>
    ensures { result ≡ begins (C.has_length lent.now) (C.is_sound lent.now) (C.plugins lent.now) p }
{
    if !lent.has_length() {
        return Err(Refusal::WrongLength);
    }
    if !lent.is_sound() {
        return Err(Refusal::NotSound);
    }
    if p == 0 || p > u64::from(lent.plugins()) {
        return Err(Refusal::NoSuchPlugin);
    }
    // It is at most N, so it fits.
    Ok((p - 1) as usize)
}
