// The calls that set and clear a plugin's stop mark: stop, by which it halts where it is, and wake, by which it goes on. Its region and its ticket remain.
//
// Each is given its plugin's record, once refusals 2, 3 and 4 are ruled out, and says what becomes of it; the words stay. They are the same on both gates, the
// slot gate and the numbered gate.
#![tactic(auto)]

ghost use Rattle.std.specs.Prelude.{◌≡◌, Err, Ok, cond, eqb};
ghost use Rattle.model.specs.declared.Answer.TheVariants.{Done};
ghost use Rattle.model.specs.declared.Refusal.TheVariants.{IsStopped, NotStopped};
ghost use Rattle.model.specs.Replies.{effect};

use begin::running;
use model::{Answer, Effect, Refusal, STOPPED, Standing};

// Sets the plugin's stop mark. It is refused as 5 if the plugin is stopped already.
pub fn stopped<R: Standing, T, V, P>(r: R) -> Result<Effect<R, Answer<T, V, P>>, Refusal>
    ensures { result ≡ cond (eqb (R.mark r) 1) (Err IsStopped) (Ok (effect (R.marked r 1) Done)) }
{
    running(r.mark())?;
    Ok(Effect {
        record: r.marked(STOPPED),
        answer: Answer::Done,
    })
}

// Clears the plugin's stop mark. It is refused as 7 if the plugin is not stopped.
pub fn woken<R: Standing, T, V, P>(r: R) -> Result<Effect<R, Answer<T, V, P>>, Refusal>
    ensures { result ≡ cond (eqb (R.mark r) 0) (Err NotStopped) (Ok (effect (R.marked r 0) Done)) }
{
    if r.mark() == 0 {
        return Err(Refusal::NotStopped);
    }
    Ok(Effect {
        record: r.marked(0),
        answer: Answer::Done,
    })
}
