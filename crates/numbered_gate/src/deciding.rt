// What a call that names a plugin decides, whichever of the six it is.
ghost use Rattle.std.specs.Prelude.{◌≡◌};
ghost use Rattle.numbered.specs.Slices.{numbered_length_is};
ghost use Rattle.numbered.specs.Sound.{sound_numbered};
ghost use Rattle.numbered_gate.specs.Decides.{Decides, alone, outcome_of};
ghost use Rattle.numbered_soundness.specs.Columns.{numbered_in, records_in};

use crate::leaving::left;
use crate::looking::looked;
use crate::placing::placed;
use crate::taking::taken;
use begin::{Checked, begin};
use lists::Plugins;
use marking::{stopped, woken};
use model::{Call, Refusal, Reply};
use numbered::{NumberedEffect, NumberedGate, NumberedRecord, NumberedReply};
use numbered_soundness::{NumberedColumns, is_sound};

// The words with the list, as a call first looks at them. It is no `Lending`: `Lending` and `Checked` are both of other crates, so that no impl of the
// one for the other may stand here; and the `Lent` of the check is of a list whose length is known.
#[derive(Clone, Copy)]
struct Lent<'a> {
    gate: &'a NumberedGate,
    list: NumberedColumns<'a>,
}

impl Checked for Lent<'_> {
    ghost plugins = { λ lent. lent.gate.now.n };

    ghost has_length = { λ lent. numbered_length_is (numbered_in lent.list) lent.gate.now.n };

    ghost is_sound = { λ lent. sound_numbered lent.gate.now (records_in lent.list) };

    fn plugins(&self) -> u16 {
        self.gate.n
    }

    fn has_length(&self) -> bool {
        self.list.has_length(self.gate.n)
    }

    fn is_sound(&self) -> bool {
        is_sound(self.gate, self.list)
    }
}

// What the call makes of the words and of its plugin's record, from refusal 5 on. Which call it is, the host says.
#[tactic(auto, unfolding(numbered::specs::Calls::called_numbered, numbered::specs::Calls::marked_numbered))]
fn called(name: Call, g: &mut NumberedGate, r: NumberedRecord) -> Result<NumberedEffect, Refusal>
    ensures { outcome_of g.new r result ≡ alone name g.old r }
{
    match name {
        Call::Take => taken(g, r),
        Call::Look => looked(g, r),
        Call::Leave => left(g, r),
        Call::Place => placed(g, r),
        Call::Stop => stopped(r),
        Call::Wake => woken(r),
    }
}

// The place of plugin p's record, what becomes of it, and the reply; or the refusal. The list is only read. It is given the name of the call, since what it
// promises is said of the name.
#[tactic(auto, using(begin::proofs::FoundLaws::found_place, crate::proofs::CallLaws::refused_first))]
pub fn decide(
    name: Call,
    g: NumberedGate,
    list: NumberedColumns,
    p: u64,
) -> Result<(usize, (NumberedRecord, NumberedReply)), Refusal>
    ensures { Decides name g (numbered_in list.entry) p result }
{
    let lent = Lent { gate: &g, list };
    let at = begin(&lent, p)?;
    let mut gate = g;
    let effect = called(name, &mut gate, list.record(at))?;
    let answer = effect.answer;
    Ok((at, (effect.record, Reply { gate, answer })))
}
