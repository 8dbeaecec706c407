// What a call that names a plugin decides, whichever of the six it is and however the list is kept.
ghost use Rattle.std.specs.Prelude.{◌≡◌};
ghost use Rattle.begin.specs.Begin.{OfSound, alone, outcome_of};
ghost use Rattle.gate.specs.Decides.{Decides};

use asking::{looked, placed};
use begin::begin;
use lists::{Lending, Plugins};
use marking::{stopped, woken};
use model::{Call, Gate, Record, Refusal, SlotEffect};
use tickets::{left, taken};

// What the call makes of the words and of its plugin's record, from refusal 5 on. Which call it is, the host says.
#[tactic(auto, unfolding(model::specs::Calls::called_in, model::specs::Calls::marked))]
#[inline(always)]
fn called(name: Call, g: &mut Gate, r: Record) -> Result<SlotEffect, Refusal>
    requires { OfSound g.old r }
    ensures { outcome_of g.new r result ≡ alone name g.old r }
{
    match name {
        Call::Take => taken(g, r),
        Call::Look => looked(g, r),
        Call::Leave => left(g, r),
        Call::Place => placed(g, r),
        Call::Stop => stopped(r),
        Call::Wake => woken(r),
    }
}

// The place of plugin p's record and what becomes of it, or the refusal. The words are changed where they lie; the list is only read. It is given the name
// of the call, and not what the call does, since what it promises is said of the name.
#[inline(always)]
pub fn decide<L: Plugins<Record = Record>>(
    name: Call,
    g: &mut Gate,
    list: L,
    p: u64,
) -> Result<(usize, SlotEffect), Refusal>
    ensures { Decides (L.has_length list g.old.n) name g.old (L.items list) p g.new result }
{
    let at = begin(&Lending { gate: &*g, list }, p)?;
    let effect = called(name, g, list.record(at))?;
    Ok((at, effect))
}
