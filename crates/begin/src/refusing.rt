// Refusals 5, 6 and 9, by the plugin's region and stop mark, on whatever gate.
ghost use Rattle.std.specs.Prelude.{◌≡◌, ◌&&◌, Err, Ok, cond, eqb, not};
ghost use Rattle.model.specs.declared.Refusal.TheVariants.{IsStopped, NotYetValid, WrongRegion};

use model::{IDLE, Refusal, STOPPED, WAITING};

// 5: the plugin is stopped.
pub fn running(mark: u8) -> Result<(), Refusal>
    ensures { result ≡ cond (eqb mark 1) (Err IsStopped) (Ok tt) }
{
    if mark == STOPPED {
        return Err(Refusal::IsStopped);
    }
    Ok(())
}

// 5, and then 6: the plugin is not in the region that the call wants.
pub fn ready(region: u8, mark: u8, wanted: u8) -> Result<(), Refusal>
    ensures { result ≡ cond (eqb mark 1) (Err IsStopped) (cond (eqb region wanted) (Ok tt) (Err WrongRegion)) }
{
    running(mark)?;
    if region != wanted {
        return Err(Refusal::WrongRegion);
    }
    Ok(())
}

// 5, then 6 if the plugin is idle, and then 9 if it waits and its ticket is not valid: the refusals of a leave.
pub fn may_leave(region: u8, mark: u8, is_valid: bool) -> Result<(), Refusal>
    ensures { result ≡ cond (eqb mark 1) (Err IsStopped) (cond (eqb region 0) (Err WrongRegion) (cond (eqb region 1 && not is_valid) (Err NotYetValid) (Ok tt))) }
{
    running(mark)?;
    if region == IDLE {
        return Err(Refusal::WrongRegion);
    }
    if region == WAITING && !is_valid {
        return Err(Refusal::NotYetValid);
    }
    Ok(())
}
